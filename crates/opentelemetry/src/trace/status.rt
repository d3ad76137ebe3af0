//! How the operation of a span went (OpenTelemetry specification, "Set Status").

use std::alloc::AllocError;
use std::cmp::Ordering;

/// Unset until somebody says; an error has a description.
#[derive(Debug, Drop)]
pub enum Status {
    Unset,
    Error { description: String },
    Ok,
}

impl Clone for Status {
    ghost use Rattle.std.specs.Prelude.{◌≡◌};
    ghost use Rattle.opentelemetry.specs.PlainValues.{plain_status, IsBare};

    ghost is_clone = { λ status copy. plain_status copy ≡ plain_status status };

    ghost is_infallible = { λ status. IsBare (plain_status status) };

    fn clone(&self) -> Result<Status, AllocError> {
        match self {
            Status::Unset => Ok(Status::Unset),
            Status::Error { description } => Ok(Status::Error {
                description: description.clone()?,
            }),
            Status::Ok => Ok(Status::Ok),
        }
    }
}

impl PartialEq for Status {
    ghost use Rattle.std.specs.Prelude.{◌≡◌, ◌↔◌, IsTrue};
    ghost use Rattle.std.specs.Ordering.{on};
    ghost use Rattle.std.proofs.lemmas.Cmp.{on_equiv};
    ghost use Rattle.std.specs.Cmp.{partial_equiv_from_equiv};
    ghost use Rattle.opentelemetry.specs.PlainValues.{plain_status};
    ghost use Rattle.opentelemetry.specs.Same.{same_status, same_status_decides, equivalence_from_decides};

    ghost eq = { on plain_status same_status };

    ghost laws = { partial_equiv_from_equiv
        (on_equiv plain_status (equivalence_from_decides same_status same_status_decides)) };

    fn eq(&self, other: &Status) -> bool
        ensures value { result ≡ same_status (plain_status self.now) (plain_status other.now) }
        ensures same { IsTrue result ↔ (plain_status self.now ≡ plain_status other.now) }
    {
        match (self, other) {
            (Status::Unset, Status::Unset) => true,
            (Status::Error { description: this }, Status::Error { description: that }) => this
                == that,
            (Status::Ok, Status::Ok) => true,
            _ => false,
        }
    }
}

impl Eq for Status {
    ghost use Rattle.std.proofs.lemmas.Cmp.{on_equiv};
    ghost use Rattle.opentelemetry.specs.PlainValues.{plain_status};
    ghost use Rattle.opentelemetry.specs.Same.{same_status, same_status_decides, equivalence_from_decides};

    ghost laws = { on_equiv plain_status (equivalence_from_decides same_status same_status_decides) };
}

impl Ord for Status {
    ghost use Rattle.std.specs.Prelude.{refl};
    ghost use Rattle.std.specs.Ordering.{on};
    ghost use Rattle.std.proofs.lemmas.Cmp.{on_total};
    ghost use Rattle.opentelemetry.specs.PlainValues.{plain_status};
    ghost use Rattle.opentelemetry.specs.Order.{status_cmp, status_cmp_total, status_ties};

    ghost cmp = { on plain_status status_cmp };

    ghost total = { on_total plain_status status_cmp_total };

    ghost matches_partial_cmp = { λ x y. refl };

    ghost matches_eq = { λ x y. status_ties (plain_status x) (plain_status y) };

    fn cmp(&self, other: &Status) -> Ordering {
        match (self, other) {
            (Status::Unset, Status::Unset) => Ordering::Equal,
            (Status::Unset, _) => Ordering::Less,
            (Status::Error { description: this }, Status::Error { description: that }) => this.cmp(
                that,
            ),
            (Status::Error { .. }, Status::Unset) => Ordering::Greater,
            (Status::Error { .. }, Status::Ok) => Ordering::Less,
            (Status::Ok, Status::Ok) => Ordering::Equal,
            (Status::Ok, _) => Ordering::Greater,
        }
    }
}

impl PartialOrd for Status {
    ghost use Rattle.std.specs.Prelude.{Some, refl};
    ghost use Rattle.std.specs.Ordering.{on};
    ghost use Rattle.std.specs.Cmp.{partial_order_from_agreeing_total};
    ghost use Rattle.std.proofs.lemmas.Cmp.{on_total};
    ghost use Rattle.opentelemetry.specs.PlainValues.{plain_status};
    ghost use Rattle.opentelemetry.specs.Order.{status_cmp, status_cmp_total, status_ties};

    ghost partial_cmp = { λ x y. Some (status_cmp (plain_status x) (plain_status y)) };

    ghost laws = { partial_order_from_agreeing_total
        (on plain_status status_cmp)
        (on_total plain_status status_cmp_total)
        (λ x y. refl)
        (λ x y. status_ties (plain_status x) (plain_status y)) };

    fn partial_cmp(&self, other: &Status) -> Option<Ordering> {
        Some(self.cmp(other))
    }
}

impl Default for Status {
    ghost use Rattle.std.specs.Prelude.{◌≡◌};
    ghost use Rattle.opentelemetry.specs.Plain.{unset};
    ghost use Rattle.opentelemetry.specs.PlainValues.{plain_status};

    ghost is_default = { λ status. plain_status status ≡ unset };

    fn default() -> Status {
        Status::Unset
    }
}
