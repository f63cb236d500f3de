//! A front whose session begins over the document root.
ghost use Rattle.std.specs.Prelude.{◌≡◌, ◌≢◌, IfOk, IfErr, IfSome, Ok, Err};
ghost use Rattle.cache_files.specs.declared.epoch.OpenFault.TheVariants as fault;
ghost use Rattle.cache_files.specs.Epochs.{HasOpenCause, next_epoch};
ghost use Rattle.docroot_changes.specs.DocrootCalls.{MakesDocrootCalls};
ghost use Rattle.front.specs.Fronts.{epoch_of_front};
ghost use Rattle.sling_dispatch.specs.InnerServing.{open_fault_of, OpensRunOver, SiteBeginsFresh};
ghost use Rattle.sling_dispatch.specs.Serving.{KeepsLogs};

use crate::form::Beginning;
use crate::renderer::PublisherRenderer;
use any_config::Farm;
use cache_files::OpenFault;
use docroot_changes::docroot_calls_add_up;
use docroot_format::FileFault;
use front::Front;
use publisher::Publisher;
use sp_outside::Disk;
use std::alloc::Global;

/// A front before a publisher, whose session begins over the files of the disk.
pub fn open_front<D: Disk>(
    alloc: Global,
    publisher: Publisher,
    farm: Farm,
    beginning: Beginning,
    disk: &mut D,
) -> Result<Front<PublisherRenderer>, OpenFault>
    ensures opens { IfOk result (OpensRunOver D.files D.faults beginning farm publisher disk.old disk.new) }
    ensures epoch { IfOk result (λ front. IfSome (D.files disk.old) (λ files. next_epoch files ≡ Ok (epoch_of_front front))) }
    ensures err { IfErr result (λ e. e ≢ fault.NoMemory → e ≢ fault.Disk → IfSome (D.files disk.old) (λ files. next_epoch files ≡ Err e)) }
    ensures unopened { IfErr result (λ e. e ≢ fault.NoMemory → e ≢ fault.Disk → D.files disk.new ≡ D.files disk.old) }
    ensures keeps { IfErr result (λ e. KeepsLogs beginning farm (D.files disk.old) (D.files disk.new)) }
    ensures cause { HasOpenCause (D.faults disk.old) (D.faults disk.new) result }
    ensures calls { MakesDocrootCalls (D.calls disk.old) (D.calls disk.new) }
{
    docroot_calls_add_up();
    let front = Front::new(alloc, PublisherRenderer { publisher }, farm, disk)?;
    match beginning {
        Beginning::Warm => Ok(front),
        Beginning::Fresh => cleared(alloc, front, disk),
    }
}

// A front that was just opened, once the pages and stamps of earlier sessions are cleared away.
fn cleared<D: Disk>(
    alloc: Global,
    front: Front<PublisherRenderer>,
    disk: &mut D,
) -> Result<Front<PublisherRenderer>, OpenFault>
    ensures same { IfOk result (λ cleared. cleared ≡ front) }
    ensures stands { IfOk result (λ _. SiteBeginsFresh D.files D.faults front disk.old disk.new) }
    ensures err { IfErr result (λ e. (e ≢ fault.Disk → e ≡ fault.NoMemory)) }
    ensures cause { HasOpenCause (D.faults disk.old) (D.faults disk.new) result }
    ensures calls { MakesDocrootCalls (D.calls disk.old) (D.calls disk.new) }
{
    match front.fresh(alloc, disk) {
        Ok(()) => Ok(front),
        Err(fault) => {
            drop(front.end());
            Err(open_fault_of(fault))
        }
    }
}

fn open_fault_of(fault: FileFault) -> OpenFault
    ensures { result ≡ open_fault_of fault }
{
    match fault {
        FileFault::Disk => OpenFault::Disk,
        FileFault::NoMemory => OpenFault::NoMemory,
    }
}
