// The frames that a Provider sends. A reply has a count, and each frame below it is made when it is
// asked for by its index; a segment's payload is the part of the lent file that two numbers name. Only
// the frame that closes a section or the file reads the octets, to sum them.
ghost use Rattle.std.specs.Prelude.{◌≡◌, ◌≤◌, eqb, length, Ok, Err};
ghost use Rattle.laws.specs.When.{when};
ghost use Rattle.asdu.specs.declared.FtError.TheVariants.{IndexOutOfRange, RecordMismatch};
ghost use Rattle.provide.specs.Record.{file_agrees};
ghost use Rattle.provide.specs.Replies.{file_ready, octets_of, section_ready, segment_frame, close_frame, limit_of, segment_count, count_of, reply_count, segment_of, section_frame, frame_at, reply_frame, only_part, section_part, part_at, reply_payload, announced};

use crate::Provider;
use asdu::{Frq, FtError, Lof, Los, Lsq, Nos, Srq, sizes};
use frame::Frame;
use requests::Reply;
use sections::Part;

// The one frame of a reply is at index 0.
#[tactic(auto, using(laws::proofs::Decide::decide))]
fn only(index: usize) -> Result<(), FtError>
    ensures { result ≡ when (eqb index 0) (Ok tt) (Err IndexOutOfRange) }
{
    if index == 0 {
        return Ok(());
    }
    Err(FtError::IndexOutOfRange)
}

// No octets beside the one frame of a reply.
#[tactic(auto, using(laws::proofs::Decide::decide), unfolding(crate::specs::Replies::only_part))]
fn only_part(index: usize) -> Result<Part, FtError>
    ensures { result ≡ only_part index }
{
    only(index)?;
    Ok(Part::NONE)
}

impl Provider {
    fn file_ready(self) -> Frame
        ensures { result ≡ file_ready self }
    {
        Frame::FileReady {
            ioa: self.ioa,
            nof: self.nof,
            lof: Lof { value: self.length },
            frq: Frq {
                value: 0,
                negative_confirm: false,
            },
        }
    }

    // Section `nos` of the lent file.
    fn octets(self, file: &[u8], nos: Nos) -> &[u8]
        ensures { result.now ≡ octets_of self file.now nos }
    {
        sections::section(file, self.section_len, nos)
    }

    fn section_ready(self, file: &[u8], nos: Nos) -> Frame
        ensures { result ≡ section_ready self file.now nos }
    {
        let octets = self.octets(file, nos);
        Frame::SectionReady {
            ioa: self.ioa,
            nof: self.nof,
            nos,
            lof: Lof {
                value: octets.len() as u32,
            },
            srq: Srq {
                value: 0,
                not_ready: false,
            },
        }
    }

    fn segment_frame(self, nos: Nos, payload: &[u8]) -> Frame
        requires { length payload.now ≤ 240 }
        ensures { result ≡ segment_frame self nos payload.now }
    {
        Frame::Segment {
            ioa: self.ioa,
            nof: self.nof,
            nos,
            los: Los {
                value: payload.len() as u8,
            },
        }
    }

    // The last segment of a section or the last section of the file, with the sum of the octets.
    fn close_frame(self, nos: Nos, lsq: u8, octets: &[u8]) -> Frame
        ensures { result ≡ close_frame self nos lsq octets.now }
    {
        let chs = checksum::checksum(octets, 0);
        Frame::LastSection {
            ioa: self.ioa,
            nof: self.nof,
            nos,
            lsq: Lsq { value: lsq },
            chs,
        }
    }

    // What a segment of this station can hold: at most 240 octets, which is LOS's largest value.
    fn limit(self) -> u8
        ensures { result ≡ limit_of self }
    {
        sizes::max_segment(self.procedure.sizes) as u8
    }

    fn segment_count(self, file: &[u8], nos: Nos) -> usize
        ensures { result ≡ segment_count self file.now nos }
    {
        let octets = self.octets(file, nos);
        sections::segment_count(octets.len() as u32, self.limit())
    }

    // Segment `index` of section `nos`.
    fn segment(self, file: &[u8], nos: Nos, index: u32) -> &[u8]
        ensures { result.now ≡ segment_of self file.now nos index }
    {
        sections::segment(self.octets(file, nos), self.limit(), index)
    }

    fn count_of(self, file: &[u8], reply: Reply) -> usize
        ensures { result ≡ count_of self file.now reply }
    {
        match reply {
            Reply::Nothing => 0,
            Reply::FileReady => 1,
            Reply::SectionReady(_) => 1,
            // Its segments and its close.
            Reply::Section(nos) => self.segment_count(file, nos) + 1,
            Reply::FileClose(_) => 1,
        }
    }

    // A section's segments, then its close.
    #[tactic(auto, using(laws::proofs::Decide::decide), unfolding(crate::specs::Replies::section_frame))]
    fn section_frame(self, file: &[u8], nos: Nos, index: usize) -> Result<Frame, FtError>
        ensures { result ≡ section_frame self file.now nos index }
    {
        let count = self.segment_count(file, nos);
        if index < count {
            let payload = self.segment(file, nos, index as u32);
            return Ok(self.segment_frame(nos, payload));
        }
        if index == count {
            let octets = self.octets(file, nos);
            return Ok(self.close_frame(nos, Lsq::SECTION_WITHOUT_DEACTIVATION, octets));
        }
        Err(FtError::IndexOutOfRange)
    }

    // Only a frame that is there is made: a file's close sums all octets.
    #[tactic(auto, using(laws::proofs::Decide::decide), unfolding(crate::specs::Replies::only))]
    fn frame_at(self, file: &[u8], reply: Reply, index: usize) -> Result<Frame, FtError>
        ensures { result ≡ frame_at self file.now reply index }
    {
        match reply {
            Reply::Nothing => Err(FtError::IndexOutOfRange),
            Reply::FileReady => {
                only(index)?;
                Ok(self.file_ready())
            }
            Reply::SectionReady(nos) => {
                only(index)?;
                Ok(self.section_ready(file, nos))
            }
            Reply::Section(nos) => self.section_frame(file, nos, index),
            Reply::FileClose(nos) => {
                only(index)?;
                Ok(self.close_frame(nos, Lsq::FILE_WITHOUT_DEACTIVATION, file))
            }
        }
    }

    // A segment's part of the file, then none for the close.
    #[tactic(auto, using(laws::proofs::Decide::decide), unfolding(crate::specs::Replies::section_part))]
    fn section_part(self, file: &[u8], nos: Nos, index: usize) -> Result<Part, FtError>
        ensures { result ≡ section_part self file.now nos index }
    {
        let count = self.segment_count(file, nos);
        if index < count {
            let at = index as u32;
            return Ok(Part {
                start: sections::segment_start(self.section_len, self.limit(), nos, at),
                length: self.segment(file, nos, at).len(),
            });
        }
        only_part(index - count)
    }

    fn part_at(self, file: &[u8], reply: Reply, index: usize) -> Result<Part, FtError>
        ensures { result ≡ part_at self file.now reply index }
    {
        match reply {
            Reply::Nothing => Err(FtError::IndexOutOfRange),
            Reply::FileReady => only_part(index),
            Reply::SectionReady(_) => only_part(index),
            Reply::Section(nos) => self.section_part(file, nos, index),
            Reply::FileClose(_) => only_part(index),
        }
    }

    // 26 where record and file disagree.
    #[tactic(auto, using(laws::proofs::Decide::decide))]
    fn agreeing(self, file: &[u8]) -> Result<(), FtError>
        ensures { result ≡ when (file_agrees self file.now) (Ok tt) (Err RecordMismatch) }
    {
        if self.agrees(file) {
            return Ok(());
        }
        Err(FtError::RecordMismatch)
    }

    // How many frames a reply has; 26 where record and file disagree.
    #[tactic(auto, using(laws::proofs::Decide::decide), unfolding(crate::specs::Replies::reply_count))]
    pub fn reply_count(self, file: &[u8], reply: Reply) -> Result<usize, FtError>
        ensures { result ≡ reply_count self file.now reply }
    {
        self.agreeing(file)?;
        Ok(self.count_of(file, reply))
    }

    // The frame at an index of a reply: 26, then 9 where the index is not below the count.
    #[tactic(auto, using(laws::proofs::Decide::decide), unfolding(crate::specs::Replies::reply_frame))]
    pub fn reply_frame(self, file: &[u8], reply: Reply, index: usize) -> Result<Frame, FtError>
        ensures { result ≡ reply_frame self file.now reply index }
    {
        self.agreeing(file)?;
        self.frame_at(file, reply, index)
    }

    // What stands beside the frame at an index, by numbers: a segment's part of the lent file, and no
    // octets beside another frame. 26, then 9 where the index is not below the count.
    #[tactic(auto, using(laws::proofs::Decide::decide), unfolding(crate::specs::Replies::reply_payload))]
    pub fn reply_payload(self, file: &[u8], reply: Reply, index: usize) -> Result<Part, FtError>
        ensures { result ≡ reply_payload self file.now reply index }
    {
        self.agreeing(file)?;
        self.part_at(file, reply, index)
    }

    // The file ready that offers the file without a select: how the control direction's provider opens
    // the transfer. 26, then what `build` refuses: 21 where the station uses neither direction, 22 where
    // not that of its own frames. No more can be refused of a record that agrees with its file. A done
    // record announces too.
    pub fn announce(self, file: &[u8]) -> Result<Frame, FtError>
        ensures { result ≡ announced self file.now }
    {
        if !self.agrees(file) {
            return Err(FtError::RecordMismatch);
        }
        if !self.procedure.selection.uses_function() {
            return Err(FtError::FunctionNotUsed);
        }
        if !self.procedure.serves(self.procedure.role, false) {
            return Err(FtError::NotSelectedDirection);
        }
        Ok(self.file_ready())
    }
}
