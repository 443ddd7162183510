// The calls that the host knows.
ghost use Rattle.std.specs.Prelude.{◌≡◌, Some};
ghost use Rattle.eleos_work.specs.Numbers.{call_of};

use eleos_words::MOST_BYTES;

/// The bytes of a key.
pub const KEY_BYTES: usize = 8;

/// The most bytes of a value.
pub const VALUE_BYTES: usize = MOST_BYTES - KEY_BYTES;

/// The most keys that are kept.
pub const MOST_KEYS: usize = 1024;

/// The status of a job that was done.
pub const OKAY: u64 = 0;

/// The status where the key has no value.
pub const MISSING: u64 = 1;

/// The status of a put of a new key where `MOST_KEYS` are kept.
pub const FULL: u64 = 2;

/// The status of what is no job of the table.
pub const BAD_JOB: u64 = 3;

/// A call of the host.
#[derive(Clone, Copy, Debug, PartialEq, Eq)]
pub enum HostCall {
    /// Answers the bytes of the job.
    Echo,
    /// Keeps a value under a key.
    Put,
    /// Answers the value of a key.
    Get,
    /// Forgets the value of a key.
    Cut,
    /// Answers how many jobs were done before.
    Clock,
}

impl HostCall {
    /// The call of this number, if there is one.
    pub fn of(number: u64) -> Option<HostCall>
        ensures { result ≡ call_of number }
    {
        match number {
            1 => Some(HostCall::Echo),
            2 => Some(HostCall::Put),
            3 => Some(HostCall::Get),
            4 => Some(HostCall::Cut),
            5 => Some(HostCall::Clock),
            _ => None,
        }
    }

    /// The number by which a job names the call.
    pub fn number(self) -> u64
        ensures { call_of result ≡ Some self }
    {
        match self {
            HostCall::Echo => 1,
            HostCall::Put => 2,
            HostCall::Get => 3,
            HostCall::Cut => 4,
            HostCall::Clock => 5,
        }
    }
}
