//! Where variables are looked up: the environment of the process, or anything else that knows values by names, as a
//! test's list does.

ghost use Rattle.std.specs.Prelude.{◌≡◌, ℕ, List, Option, IfErr, IfOk, string_bytes};
ghost use Rattle.std.specs.Option.{option_map};
ghost use Rattle.otel_host.specs.Environment.{IsFaultOf};

use std::env;
use std::env::VarError;
use std::rt::Env;
use thiserror::Error;

/// Why the environment does not say a variable's value.
#[derive(Clone, Copy, Debug, PartialEq, Eq, Error)]
pub enum EnvError {
    /// The value of the variable of this name is not UTF-8.
    #[error("{name} is not UTF-8")]
    NotUnicode { name: &'static str },
    /// There is no memory for a value.
    #[error("out of memory")]
    OutOfMemory,
}

/// What knows the values of variables by their names.
pub trait Variables {
    /// Which value it may answer for a name; none where the variable is not set.
    ghost holds: { Self → List ℕ → Option (List ℕ) → Type 0 };

    /// The value of the variable of this name, and none where that is not set. `NotUnicode` with this name where it is
    /// not UTF-8, `OutOfMemory` where there is no memory for it.
    fn value(&self, name: &'static str) -> Result<Option<String>, EnvError>
        ensures ok { IfOk result (λ found. holds self.now name.now (option_map string_bytes found)) }
        ensures err { IfErr result (IsFaultOf name.now) };
}

/// The environment of the process. What that holds no clause can say, so its relation claims nothing.
#[derive(Drop)]
pub struct HostVariables<'a, R> {
    pub rt: &'a R,
}

impl<'a, R: Env + AllocGlobal> Variables for HostVariables<'a, R> {
    ghost holds = { λ _ _ _. Unit {0} };

    fn value(&self, name: &'static str) -> Result<Option<String>, EnvError> {
        match env::var(self.rt, name) {
            Ok(text) => Ok(Some(text)),
            Err(VarError::NotPresent) => Ok(None),
            Err(VarError::NotUnicode) => Err(EnvError::NotUnicode { name }),
            Err(VarError::OutOfMemory) => Err(EnvError::OutOfMemory),
        }
    }
}
