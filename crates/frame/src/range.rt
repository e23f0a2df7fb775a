// Whether every value of a frame, and what stands beside it, is within its element's range. The object
// address is judged apart, by the width that the system gives it.
ghost use Rattle.std.specs.Prelude.{◌≡◌, ◌-◌, ◌/◌, length};
ghost use Rattle.asdu.specs.Entry.{entry_address};
ghost use Rattle.frame.specs.Frames.{last_ioa};
ghost use Rattle.frame.specs.Ranges.{segment_in_range, directory_in_range, values_in_range};

use crate::Frame;
use asdu::{AddressSizes, Cause, DirectoryEntry, Los, entry, sizes};

// A segment's length: that of its payload, which is no longer than the widths allow.
#[tactic(auto, using(laws::proofs::Decide::decide), unfolding(crate::specs::Ranges::segment_in_range))]
fn is_segment_in_range(sizes: AddressSizes, los: Los, payload: &[u8]) -> bool
    ensures { result ≡ segment_in_range sizes los payload.now }
{
    let length = payload.len();
    los.is_in_range() && usize::from(los.value) == length && length <= sizes::max_segment(sizes)
}

// A directory goes spontaneously or as requested.
#[tactic(auto, using(laws::proofs::Decide::decide), unfolding(crate::specs::Ranges::directory_in_range, crate::specs::Ranges::directory_cause))]
fn is_directory_in_range(cause: Cause, entries: &[u8]) -> bool
    ensures { result ≡ directory_in_range cause entries.now }
{
    matches!(cause.value, Cause::SPONTANEOUS | Cause::REQUEST) && entry::is_page(entries)
}

// Whether every value of the frame is in range; `beside` is a segment's payload or a directory's
// entries, and is not read for another kind.
#[tactic(auto, using(laws::proofs::Decide::decide))]
pub fn is_in_range(sizes: AddressSizes, frame: Frame, beside: &[u8]) -> bool
    ensures { result ≡ values_in_range sizes frame beside.now }
{
    match frame {
        Frame::FileReady { lof, frq, .. } => lof.is_in_range() && frq.is_in_range(),
        Frame::SectionReady { lof, srq, .. } => lof.is_in_range() && srq.is_in_range(),
        Frame::Sc { scq, .. } => scq.is_in_range(),
        Frame::LastSection { .. } => true,
        Frame::Ack { afq, .. } => afq.is_in_range(),
        Frame::Segment { los, .. } => is_segment_in_range(sizes, los, beside),
        Frame::Directory { cause, .. } => is_directory_in_range(cause, beside),
        Frame::QueryLog {
            range_start,
            range_stop,
            ..
        } => range_start.is_in_range() && range_stop.is_in_range(),
    }
}

// The last address of a page's entries.
fn last_entry(ioa: u32, entries: &[u8]) -> u32
    ensures { result ≡ entry_address ioa (length entries.now / 13 - 1) }
{
    let count = entries.len() / DirectoryEntry::LEN;
    entry::entry_address(ioa, count.saturating_sub(1))
}

// The last of a frame's object addresses: a directory page's entries rise from its own.
pub fn last_ioa(frame: Frame, beside: &[u8]) -> u32
    ensures { result ≡ last_ioa frame beside.now }
{
    match frame {
        Frame::Directory { ioa, .. } => last_entry(ioa, beside),
        Frame::FileReady { ioa, .. }
        | Frame::SectionReady { ioa, .. }
        | Frame::Sc { ioa, .. }
        | Frame::LastSection { ioa, .. }
        | Frame::Ack { ioa, .. }
        | Frame::Segment { ioa, .. }
        | Frame::QueryLog { ioa, .. } => ioa,
    }
}
