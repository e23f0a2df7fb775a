// Which call a line is.
use directory_calls::{calling, paging};
use frame_calls::{bodies, elements, frames, making, parts};
use kept::Kept;
use machine_calls::{providing, receiving};
use octet_calls::{buffers, loads, pages, texts};
use words::{Answered, Unanswered, Words};

// Answers a call of values, which keeps nothing.
fn plain(name: &str, words: &mut Words<'_>) -> Answered {
    match name {
        "frq"
        | "srq"
        | "scq"
        | "afq"
        | "lof"
        | "los"
        | "sof"
        | "time"
        | "entry"
        | "pack"
        | "unpack"
        | "is_page"
        | "entry_address"
        | "constant"
        | "sizes"
        | "unknown_cause"
        | "is_mirror"
        | "checksum"
        | "check_checksum" => elements::call_on_output(name, words),
        "section_length"
        | "section_count"
        | "segment_count"
        | "segment_start"
        | "section"
        | "segment"
        | "cut"
        | "close_section"
        | "close_file"
        | "has_last" => { parts::call_on_output(name, words) }
        "frame"
        | "frame_in_range"
        | "is_file_type"
        | "is_receiver_side_type"
        | "answers"
        | "answers_type"
        | "header_of"
        | "frame_with" => frames::call_on_output(name, words),
        "make" => making::call_on_output(words),
        "body" => bodies::call_on_output(words),
        "requests" => providing::decide_on_output(words),
        "script" => party_calls::script_line_on_output(words),
        "record" => window_calls::record_on_output(words),
        _ => station_calls::plain_on_output(name, words),
    }
}

// Answers a call of the store.
fn of_store(words: &mut Words<'_>, kept: &mut Kept) -> Answered {
    if words.skips("add") {
        return pages::add_on_output(words, &mut kept.store);
    }
    buffers::call_on_output(words, &mut kept.store)
}

// Answers the call that these words are.
fn call(words: &mut Words<'_>, kept: &mut Kept) -> Answered {
    match words.word()? {
        "station" => station_calls::call_on_output(words, &mut kept.station),
        "provider" => providing::call_on_output(words, kept),
        "receiver" => receiving::call_on_output(words, kept),
        "pager" => paging::packed_on_output(words, &kept.file),
        "pager_list" => paging::listed_on_output(words, &kept.file),
        "call" => calling::call_on_output(words, kept),
        "run" => party_calls::run_on_output(words, kept),
        "party" => party_calls::call_on_output(words, kept),
        "window" => window_calls::call_on_output(words, kept),
        "file" => buffers::call_on_output(words, &mut kept.file),
        "damage" => buffers::call_on_output(words, &mut kept.damage),
        "store" => of_store(words, kept),
        "load" => loads::call_on_output(words, kept),
        "page" => {
            words.expect_word("print")?;
            pages::print_on_output(words, &kept.store)
        }
        name => plain(name, words),
    }
}

// Answers the call that a line is, and writes both; nothing of a line that cannot be read.
pub fn answer(line: &[u8], kept: &mut Kept) -> Answered {
    if line.ends_with(b"\"") {
        return texts::call_on_output(line, kept);
    }
    let line = str::from_utf8(line).map_err(|_| Unanswered::Unread)?;
    call(&mut Words::of(line), kept)
}
