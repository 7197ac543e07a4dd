ghost use Rattle.std.specs.Prelude.{◌≡◌, ◌⊎◌, ◌↔◌, ◌+◌, ◌^◌, ◌≤◌, ◌<◌, ◌++◌, List, ℕ, length, take, drop, IfOk, OnOk, OnErr, option_map};
ghost use Rattle.mc_outside.specs.Bytes.{put, Told, HasCause};
ghost use Rattle.mc_outside.specs.DiskView.{DiskView, IsDisk, DiskGoes, CallPairs, Follows, LeavesNoMore, IsSynced, Torn, CutShort};

use std::error::Error;
use std::fmt;

/// A call of [`Disk`] failed, and the count of the disk's faults rose in that call.
#[derive(Clone, Copy, Debug, PartialEq, Eq)]
pub struct DiskFault;

impl fmt::Display for DiskFault {
    ghost use Rattle.std.specs.Prelude.{Some, codes};

    ghost output = { λ _. Some (codes "disk fault") };

    fn fmt<W: fmt::Write>(&self, f: &mut fmt::Formatter<W>) -> fmt::Result {
        f.write_str("disk fault")
    }
}

impl Error for DiskFault {}

/// Bytes that stay, and what a crash may leave of them.
///
/// Between two syncs each written range, and the part past the old end, may hold any bytes after
/// a crash; the bytes outside stay. The size after a crash is any size from the least to the
/// greatest that the disk had since the last sync. After a sync that succeeds a crash leaves what
/// a read gives. A crash pair since a moment is an image that a crash at some moment since then
/// might have left, with the bytes that had been sent by then.
///
/// A disk that tells its contents before a call tells them after it, and the reverse. The count
/// of faults is below 2^64 and never falls.
pub trait Disk {
    /// What the disk means now.
    ghost disk: { Self → DiskView };

    /// Calls of Disk alone lead from the one to the other.
    ghost disk_moved: { Self → Self → Type 0 };

    /// The length of the contents, in bytes.
    fn size(&mut self) -> Result<u64, DiskFault>
        ensures moved { disk_moved self.old self.new }
        ensures pairs { CallPairs (disk self.old) (disk self.new) }
        ensures cause { HasCause (disk self.old).faults (disk self.new).faults result }
        ensures same { (disk self.new).contents ≡ (disk self.old).contents }
        ensures crash { LeavesNoMore (disk self.old) (disk self.new) }
        ensures length { IfOk result (λ n. (x : List ℕ) → (disk self.old).contents ≡ Some x → n ≡ length x) };

    /// Copies the bytes that stand from `at` on to the front of `buf` and answers how many: 0
    /// exactly where `buf` is empty or `at` is at or past the end, else at least one. At an `Err`
    /// what `buf` holds is unspecified.
    fn read(&mut self, at: u64, buf: &mut [u8]) -> Result<usize, DiskFault>
        ensures moved { disk_moved self.old self.new }
        ensures pairs { CallPairs (disk self.old) (disk self.new) }
        ensures cause { HasCause (disk self.old).faults (disk self.new).faults result }
        ensures same { (disk self.new).contents ≡ (disk self.old).contents }
        ensures crash { LeavesNoMore (disk self.old) (disk self.new) }
        ensures room { IfOk result (λ n. n ≤ length buf.old) }
        ensures bytes { IfOk result (λ n. (x : List ℕ) → (disk self.old).contents ≡ Some x
            → buf.new ≡ take n (drop at x) ++ drop n buf.old) }
        ensures end { IfOk result (λ n. (x : List ℕ) → (disk self.old).contents ≡ Some x
            → (n ≡ 0) ↔ ((length buf.old ≡ 0) ⊎ (length x ≤ at))) };

    /// Puts the bytes there and leaves the others; a gap past the old end is filled with zeros.
    /// At an `Err` the range counts as written and not synced.
    fn write_at(&mut self, at: u64, bytes: &[u8]) -> Result<(), DiskFault>
        requires { at + length bytes.now ≤ 2 ^ 40 }
        ensures moved { disk_moved self.old self.new }
        ensures pairs { CallPairs (disk self.old) (disk self.new) }
        ensures cause { HasCause (disk self.old).faults (disk self.new).faults result }
        ensures written { OnOk result ((disk self.new).contents ≡ option_map (put at bytes.now) (disk self.old).contents) }
        ensures failed { OnErr result (Told (Torn at (length bytes.now)) (disk self.old).contents (disk self.new).contents) }
        ensures crash { Follows (Torn at (length bytes.now)) (disk self.old) (disk self.new) };

    /// Drops the bytes from `size` on; a disk that is no longer stays as it is. The bytes taken
    /// away count as written. At an `Err` the same range counts as written and not synced.
    fn cut(&mut self, size: u64) -> Result<(), DiskFault>
        ensures moved { disk_moved self.old self.new }
        ensures pairs { CallPairs (disk self.old) (disk self.new) }
        ensures cause { HasCause (disk self.old).faults (disk self.new).faults result }
        ensures cut { OnOk result ((disk self.new).contents ≡ option_map (take size) (disk self.old).contents) }
        ensures failed { OnErr result (Told (CutShort size) (disk self.old).contents (disk self.new).contents) }
        ensures crash { Follows (CutShort size) (disk self.old) (disk self.new) };

    /// Makes the contents last: after an `Ok` a crash leaves what a read gives.
    fn sync(&mut self) -> Result<(), DiskFault>
        ensures moved { disk_moved self.old self.new }
        ensures pairs { CallPairs (disk self.old) (disk self.new) }
        ensures cause { HasCause (disk self.old).faults (disk self.new).faults result }
        ensures same { (disk self.new).contents ≡ (disk self.old).contents }
        ensures crash { LeavesNoMore (disk self.old) (disk self.new) }
        ensures synced { OnOk result (IsSynced (disk self.new)) };

    /// What holds of the disk at each moment.
    ghost is_disk: { (a : Self) → IsDisk (disk a) };

    /// No call at all keeps the relation, and so do calls that follow one another.
    ghost disk_stays: { (a : Self) → disk_moved a a };

    ghost disk_goes_on: { (a b c : Self) → disk_moved a b → disk_moved b c → disk_moved a c };

    /// What calls of Disk alone keep: the count never falls, nothing is sent, and the crash pairs
    /// since a moment are those of before, joined with those since.
    ghost disk_goes: { (a b : Self) → disk_moved a b → DiskGoes (disk a) (disk b) };
}
