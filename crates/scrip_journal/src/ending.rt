/// How the reading of a journal ended.
#[derive(Clone, Copy, Debug, PartialEq, Eq)]
pub enum Ending {
    /// At a closed gate.
    Closed,
    /// At bytes that can't stand from this place on.
    Spoiled(u64),
    /// At an entry with another chain at this place than the one computed.
    Unchained {
        place: u64,
        stood: [u8; 32],
        computed: [u8; 32],
    },
    /// By a fault of the disk.
    Failed,
}

/// Why no entry was read.
#[derive(Clone, Copy, Debug, PartialEq, Eq)]
pub enum ReplayFault {
    /// The bytes from this place on can't stand in a journal.
    BadRecord {
        place: u64,
    },
    /// The 32 bytes from this place on are another chain than that of the entries up to there, which was
    /// computed.
    BadChain {
        place: u64,
        stood: [u8; 32],
        computed: [u8; 32],
    },
    /// The disk failed.
    Disk,
}

impl Ending {
    ghost use Rattle.std.specs.Prelude.{◌≡◌};
    ghost use Rattle.scrip_journal.specs.Answers.{answer_of, unless_failed};

    /// The answer of a reading that ended so.
    pub(crate) fn answer(self) -> Result<Option<u64>, ReplayFault>
        ensures { result ≡ answer_of self }
    {
        match self {
            Ending::Closed => Ok(None),
            Ending::Spoiled(place) => Err(ReplayFault::BadRecord { place }),
            Ending::Unchained {
                place,
                stood,
                computed,
            } => Err(ReplayFault::BadChain {
                place,
                stood,
                computed,
            }),
            Ending::Failed => Err(ReplayFault::Disk),
        }
    }

    /// That the bytes can't stand from this place on, unless the disk failed.
    pub(crate) fn unless_failed(self, place: u64) -> Ending
        ensures { result ≡ unless_failed self place }
    {
        match self {
            Ending::Failed => Ending::Failed,
            _ => Ending::Spoiled(place),
        }
    }
}
