//! Why a POST changes nothing.
ghost use Rattle.std.specs.Prelude.{◌≡◌};
ghost use Rattle.publisher.specs.Refusals.{tree_refusal};
ghost use Rattle.publisher.specs.declared.refusal.Refusal.TheVariants.{NoMemory as out_of_memory};

use form_input::FormFault;
use post_apply::ApplyFault;
use post_plan::PlanFault;
use resource_tree::TreeFault;
use sp_base::NoMemory;

/// Why a POST changes nothing.
#[derive(Drop)]
pub(crate) enum Refusal {
    /// It is answered with the error of this status code.
    Status(u16),
    /// Out of memory.
    NoMemory,
}

impl From<NoMemory> for Refusal {
    ghost from_gives = { λ _ e. e ≡ out_of_memory };

    fn from(_fault: NoMemory) -> Refusal {
        Refusal::NoMemory
    }
}

impl From<FormFault> for Refusal {
    ghost use Rattle.publisher.specs.Refusals.{of_form};

    ghost from_gives = { λ fault e. e ≡ of_form fault };

    fn from(fault: FormFault) -> Refusal {
        match fault {
            FormFault::WrongKind => Refusal::Status(415),
            FormFault::NoBoundary => Refusal::Status(400),
            FormFault::BadPart(_) => Refusal::Status(400),
            FormFault::TooMany => Refusal::Status(400),
            FormFault::NoMemory => Refusal::NoMemory,
        }
    }
}

impl From<PlanFault> for Refusal {
    ghost use Rattle.publisher.specs.Refusals.{of_plan};

    ghost from_gives = { λ fault e. e ≡ of_plan fault };

    fn from(fault: PlanFault) -> Refusal {
        match fault {
            PlanFault::BadOperation => Refusal::Status(400),
            PlanFault::NoDest => Refusal::Status(400),
            PlanFault::BadOrder => Refusal::Status(400),
            PlanFault::BadHint(_) => Refusal::Status(400),
            PlanFault::BadPath(_) => Refusal::Status(400),
            PlanFault::NoMemory => Refusal::NoMemory,
        }
    }
}

fn of_tree(fault: TreeFault) -> Refusal
    ensures { result ≡ tree_refusal fault }
{
    match fault {
        TreeFault::NoSuch(_) => Refusal::Status(404),
        TreeFault::RootFixed => Refusal::Status(409),
        TreeFault::IntoItself => Refusal::Status(409),
        TreeFault::Exists(_) => Refusal::Status(409),
        TreeFault::Taken(_) => Refusal::Status(409),
        TreeFault::NoSibling => Refusal::Status(409),
        TreeFault::TooDeep => Refusal::Status(409),
        TreeFault::FullTree => Refusal::Status(409),
        TreeFault::NoMemory => Refusal::NoMemory,
    }
}

impl From<ApplyFault> for Refusal {
    ghost use Rattle.publisher.specs.Refusals.{of_operation};

    ghost from_gives = { λ fault e. e ≡ of_operation fault };

    fn from(fault: ApplyFault) -> Refusal {
        match fault {
            ApplyFault::Tree(fault) => of_tree(fault),
            ApplyFault::Value(_, _) => Refusal::Status(400),
            ApplyFault::DestThere(_) => Refusal::Status(412),
            ApplyFault::NoMemory => Refusal::NoMemory,
        }
    }
}
