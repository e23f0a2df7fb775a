// The last transfers (document 02, A14): a window takes a record for each ended transfer and shows totals
// over those inside, so that maintenance sees a radio path get worse. When it is full the oldest leaves.
// The records lie in a ring of as many places as the window is wide. The totals are added up where they
// are asked for, so that nothing in a window can disagree with its records.
#![tactic(auto)]

ghost use Rattle.std.specs.Prelude.{◌≡◌, ◌+◌, ◌-◌, ◌≤◌, true, ◌++◌, length, drop};
ghost use Rattle.window.specs.Window.{width_right, window_right, empty_window, accepted, refused, making, added, adding};
ghost use Rattle.window.specs.Totals.{with_record, totals_of, totals_answer};
ghost use Rattle.window.specs.Ranges.{WithinBy, RisenBy};

use asdu::FtError;

// The most places of a window.
pub const MAX_WIDTH: u8 = 64;

// The record of an ended transfer.
#[derive(Clone, Copy, Default, PartialEq, Eq)]
pub struct Ended {
    // How many octets the Receiver holds.
    pub octets: u32,
    // How many frames passed.
    pub frames: u32,
    // How many sendings of a section were damaged.
    pub damaged: u32,
    // Whether it holds the whole file.
    pub whole: bool,
}

// A window over the latest records.
#[derive(Clone, Copy, PartialEq, Eq)]
pub struct Window {
    // How many records it has room for, 1 to 64.
    pub width: u8,
    // How many are inside, 0 to the width.
    pub count: u8,
    // The place that the next one goes to, 0 to width - 1.
    pub place: u8,
    // The places; those from the width on are not used. An array: no heap, fixed memory.
    pub records: [Ended; 64],
}

// A window is handed back beside its answer, as it came in where it was refused (`adding`, specs/Window.antt).
#[derive(Clone, Copy, PartialEq, Eq)]
pub struct WindowStep {
    pub window: Window,
    pub answer: Result<(), FtError>,
}

// Sums over the records inside; the fourth counts the whole ones.
#[derive(Clone, Copy, Default, PartialEq, Eq)]
pub struct Totals {
    pub octets: u64,
    pub frames: u64,
    pub damaged: u64,
    pub whole: u64,
}

// Older and newer records without so many of the oldest. Cut off here, they cost nothing; to `skip` them takes a
// turn for each.
fn without_oldest<'a>(
    older: &'a [Ended],
    newer: &'a [Ended],
    left: usize,
) -> (&'a [Ended], &'a [Ended])
    ensures { (result.0.now ≡ drop left older.now) × (result.1.now ≡ drop (left - length older.now) newer.now) }
{
    let gone = left.saturating_sub(older.len());
    (
        &older[left.min(older.len())..],
        &newer[gone.min(newer.len())..],
    )
}

impl Totals {
    // With a record more. Those of at most 63 records have room for it.
    fn with(self, ended: Ended) -> Totals
        requires { WithinBy 63 self }
        ensures { (result ≡ with_record ended self) × RisenBy self result }
    {
        Totals {
            octets: self.octets + u64::from(ended.octets),
            frames: self.frames + u64::from(ended.frames),
            damaged: self.damaged + u64::from(ended.damaged),
            whole: self.whole + u64::from(ended.whole),
        }
    }

    // The totals over older records and newer ones, but for the oldest that have left. It is no fold, since a
    // fold's closure cannot say that so few records as yet leave room for one more.
    fn of(older: &[Ended], newer: &[Ended], left: usize) -> Totals
        requires { length older.now + length newer.now ≤ 64 + left }
        ensures { result ≡ totals_of (drop left (older.now ++ newer.now)) }
    {
        let (older, newer) = without_oldest(older, newer, left);
        let mut totals = Totals::default();
        for ended in older.iter().chain(newer) {
            totals = totals.with(*ended);
        }
        totals
    }
}

impl WindowStep {
    fn accepted(window: Window) -> WindowStep
        ensures { result ≡ accepted window }
    {
        WindowStep {
            window,
            answer: Ok(()),
        }
    }

    fn refused(window: Window) -> WindowStep
        ensures { result ≡ refused window }
    {
        WindowStep {
            window,
            answer: Err(FtError::InvalidWindow),
        }
    }
}

// Whether a window can be so wide.
#[tactic(auto, using(laws::proofs::Decide::decide), unfolding(crate::specs::Window::width_right))]
fn is_width(width: u8) -> bool
    ensures { result ≡ width_right width }
{
    (1..=MAX_WIDTH).contains(&width)
}

impl Window {
    // A window of this width with no records.
    fn empty(width: u8) -> Window
        ensures { result ≡ empty_window width }
    {
        Window {
            width,
            count: 0,
            place: 0,
            records: [Ended::default(); 64],
        }
    }

    // A window of this width with no records. A width outside 1 to 64 is 33: the window that is handed back
    // then has that width, and every call refuses it.
    #[tactic(auto, using(laws::proofs::Decide::decide), unfolding(crate::specs::Window::making))]
    pub fn new(width: u8) -> WindowStep
        ensures { result ≡ making width }
    {
        let window = Window::empty(width);
        if !is_width(width) {
            return WindowStep::refused(window);
        }
        WindowStep::accepted(window)
    }

    // Whether a window handed in can be used: its width is right, no more records are inside than it has
    // room for, and the next one goes to a place within it.
    #[tactic(auto, using(laws::proofs::Decide::decide), unfolding(crate::specs::Window::window_right))]
    pub fn is_right(self) -> bool
        ensures { result ≡ window_right self }
    {
        is_width(self.width) && self.count <= self.width && self.place < self.width
    }

    // Puts a record inside. When the window is full the oldest leaves, whose place the new one takes.
    #[tactic(auto, using(laws::proofs::Decide::decide), unfolding(crate::specs::Window::adding))]
    pub fn add(self, ended: Ended) -> WindowStep
        ensures { result ≡ adding self ended }
    {
        if !self.is_right() {
            return WindowStep::refused(self);
        }
        WindowStep::accepted(self.added(ended))
    }

    // The window with the record inside.
    #[tactic(auto, using(crate::proofs::Right::right_bounds))]
    fn added(self, ended: Ended) -> Window
        requires { window_right self ≡ true }
        ensures { result ≡ added self ended }
    {
        let next = (self.place + 1) % self.width;
        let count = self.count + 1;
        let mut records = self.records;
        records[usize::from(self.place)] = ended;
        Window {
            count: self.width.min(count),
            place: next,
            records,
            ..self
        }
    }

    // The totals over the records inside. Those from the next place on are older than those before it, and
    // of all of them, the oldest first, the last so many are inside.
    #[tactic(auto, using(laws::proofs::Decide::decide, crate::proofs::Right::right_bounds), unfolding(crate::specs::Totals::totals_answer))]
    pub fn totals(self) -> Result<Totals, FtError>
        ensures { result ≡ totals_answer self }
    {
        if !self.is_right() {
            return Err(FtError::InvalidWindow);
        }
        let width = usize::from(self.width);
        let place = usize::from(self.place);
        let older = &self.records[place..width];
        let newer = &self.records[..place];
        let left = width - usize::from(self.count);
        Ok(Totals::of(older, newer, left))
    }
}
