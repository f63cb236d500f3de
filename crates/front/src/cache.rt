//! What stands behind the connections: the cache, the flights in the air, and the unfinished flushes.
ghost use Rattle.std.specs.Prelude.{◌≡◌, ◌≢◌, ◌==◌, true, [], Ok, Err, IfErr, IfOk, IfSome};
ghost use Rattle.cache_files.specs.declared.epoch.OpenFault.TheVariants as fault;
ghost use Rattle.cache_files.specs.Epochs.{HasOpenCause, next_epoch, told_with_epoch};
ghost use Rattle.coherence_core.specs.Cores.{flights_of, flushes_of};
ghost use Rattle.coherence_core.specs.Openings.{OpensCore};
ghost use Rattle.coherence_core.specs.Sessions.{BeginsSession, KeepsHolds};
ghost use Rattle.docroot_changes.specs.Changes.{Told};
ghost use Rattle.http_front.specs.Faults.{insufficient_storage};
ghost use Rattle.front.specs.Caches.{AnswersRequest, answered_locally};
ghost use Rattle.front.specs.Uses.{UsesDisk};

use crate::answered::{Answered, not_out_of_memory, out_of_memory};
use crate::ticketed::{TicketedFlight, new_flight};
use any_config::Farm;
use cache_files::OpenFault;
use coherence_core::{Core, Got, Requested};
use connections::ConnectionId;
use flights::tickets_have_the_places_of_their_flights;
use http_front::INSUFFICIENT_STORAGE;
use run_events::{Conditions, Flushing};
use sp_base::{Req, TextBuf};
use sp_outside::Disk;
use std::alloc::Global;
use std::marker::Model;

/// The core of a cache, the flights in the air, and the unfinished flushes, the oldest first, each with the connection that waits for it.
pub(crate) struct Cache {
    pub(crate) core: Core,
    pub(crate) flights: Vec<TicketedFlight>,
    pub(crate) flushes: Vec<Flushing>,
}

impl Model for Cache {
    ghost use Rattle.front.specs.Caches.{AreTicketed, CacheParts, flying_of};

    ghost Value = { CacheParts };

    ghost view = { λ cache. record { core = cache.core; flying = flying_of cache.flights.items; flushes = cache.flushes.items } };

    ghost invariant = { λ cache. AreTicketed cache.core cache.flights.items };
}

impl Cache {
    /// A cache whose session begins over the files of the disk.
    pub(crate) fn start<D: Disk>(
        alloc: Global,
        farm: Farm,
        disk: &mut D,
    ) -> Result<Cache, OpenFault>
        ensures log { IfOk result (λ cache. BeginsSession farm (D.files disk.old) (D.files disk.new) cache.core) }
        ensures left { IfErr result (λ fault. Told (KeepsHolds farm) (D.files disk.old) (D.files disk.new)) }
        ensures err { IfErr result (λ e. e ≢ fault.NoMemory → e ≢ fault.Disk → IfSome (D.files disk.old) (λ files. next_epoch files ≡ Err e)) }
        ensures epoch { IfOk result (λ cache. IfSome (D.files disk.old) (λ files. next_epoch files ≡ Ok cache.core.epoch)) }
        ensures farm { IfOk result (λ cache. cache.core.farm ≡ farm) }
        ensures after { IfOk result (λ cache. D.files disk.new ≡ told_with_epoch (D.files disk.old) cache.core.epoch) }
        ensures opened { IfOk result (λ cache. OpensCore (D.files disk.old) (D.files disk.new) cache.core) }
        ensures unopened { IfErr result (λ e. e ≢ fault.Disk → D.files disk.new ≡ D.files disk.old) }
        ensures empty { IfOk result (λ cache. (flights_of cache.core ≡ []) × (flushes_of cache.core ≡ []) × (cache.flying ≡ []) × (cache.flushes ≡ [])) }
        ensures cause { HasOpenCause (D.faults disk.old) (D.faults disk.new) result }
        ensures disk { UsesDisk (D.faults disk.old) (D.faults disk.new) (D.calls disk.old) (D.calls disk.new) }
    {
        let core = Core::start(alloc, farm, disk)?;
        Ok(Cache {
            core,
            flights: Vec::new(alloc),
            flushes: Vec::new(alloc),
        })
    }

    /// The farm that the cache stands before.
    pub(crate) fn farm(&self) -> &Farm
        ensures { result.now ≡ self.now.core.farm }
    {
        self.core.farm()
    }

    /// Answers a request of a connection from this peer, or begins what will bring its answer.
    pub(crate) fn request<D: Disk>(
        &mut self,
        alloc: Global,
        disk: &mut D,
        c: ConnectionId,
        request: Req,
        peer: &TextBuf,
    ) -> Answered
        ensures given { AnswersRequest D.files D.faults c request peer.now self.old disk.old self.new disk.new result }
        ensures disk { UsesDisk (D.faults disk.old) (D.faults disk.new) (D.calls disk.old) (D.calls disk.new) }
    {
        tickets_have_the_places_of_their_flights();
        let slices = self.flushes.is_empty();
        // The room of a flight or a flush is taken before it begins, so that it isn't lost.
        if self.flights.reserve(1).is_err() || self.flushes.reserve(1).is_err() {
            return turned_away_out_of_memory(c, request, false);
        }
        let Requested { got, disk_failed } = self.core.request(alloc, disk, &request, peer.text());
        let conditions = not_out_of_memory(disk_failed);
        match got {
            Got::Asked(ticket, key) => {
                let number = ticket.number();
                let flying = new_flight(number, c, request);
                self.flights
                    .push_reserved(TicketedFlight { ticket, flying });
                Answered::asked(c, number, key, conditions)
            }
            Got::Flush(number, inv) => {
                let_go(request);
                self.flushes.push_reserved(Flushing {
                    number,
                    connection: c,
                });
                Answered::begun(c, number, inv, slices, conditions)
            }
            Got::Hit(key, answer) => {
                let_go(request);
                Answered::hit(c, key, answer, conditions)
            }
            Got::Down => turned_away(c, request, 503, conditions),
            Got::FullPurge => turned_away(c, request, 503, conditions),
            Got::FullAir => turned_away(c, request, 503, conditions),
            Got::Worn => turned_away(c, request, 503, conditions),
            Got::FlushForbidden => turned_away(c, request, 403, conditions),
            Got::FlushRefused(_) => turned_away(c, request, 400, conditions),
            Got::Denied => turned_away(c, request, 404, conditions),
            Got::NoMemory => turned_away_out_of_memory(c, request, disk_failed),
        }
    }
}

// Answers a request for which memory ran out.
fn turned_away_out_of_memory(c: ConnectionId, request: Req, disk_failed: bool) -> Answered
    ensures { result ≡ answered_locally c insufficient_storage true (record { disk_failed = disk_failed; out_of_memory = true }) }
{
    turned_away(c, request, INSUFFICIENT_STORAGE, out_of_memory(disk_failed))
}

// Answers a request by the front itself, with this status.
fn turned_away(c: ConnectionId, _request: Req, status: u16, conditions: Conditions) -> Answered
    ensures { result ≡ answered_locally c status (status == insufficient_storage) conditions }
{
    Answered::local(c, status, conditions)
}

// A request that no flight takes.
fn let_go(_request: Req) {}
