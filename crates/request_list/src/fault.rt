// Why a request file is refused.
ghost use Rattle.std.specs.Prelude.{◌≡◌};
ghost use Rattle.request_list.specs.declared.fault.RequestFault.TheVariants as fault;

use dvs_base::NoMemory;

/// The columns of a request file.
#[derive(Clone, Copy, Debug, PartialEq, Eq)]
pub enum RequestColumn {
    /// The tick at which the request arrives.
    Arrival,
    /// The work units that it needs.
    Units,
}

/// The first error of a request file. Rows count from 1.
#[derive(Clone, Copy, Debug, PartialEq, Eq)]
pub enum RequestFault {
    /// There is no record, or the first one isn't `arrival`, `units`.
    Header,
    /// There are `count` rows, more than 100000.
    TooMany { count: u64 },
    /// The row has another number of fields than 2.
    Fields { row: u64, count: u64 },
    /// The column isn't a decimal number below 2^64.
    BadNumber { row: u64, column: RequestColumn },
    /// The units are 0 or above 2^60.
    Range { row: u64 },
    /// The arrival is below that of the row before.
    Early { row: u64 },
    /// Memory ran out.
    NoMemory,
}

impl From<NoMemory> for RequestFault {
    ghost from_gives = { λ _ e. e ≡ fault.NoMemory };

    fn from(_e: NoMemory) -> RequestFault {
        RequestFault::NoMemory
    }
}
