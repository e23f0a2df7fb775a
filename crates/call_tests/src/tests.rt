// The calls of each crate, the values of `shown`, what is left behind a call, and what cannot be written.
use arrayvec::ArrayString;
use asdu::{FtError, Nos};
use directory_calls::{calling, paging};
use frame_calls::{bodies, elements, frames, making, parts};
use kept::Kept;
use machine_calls::{providing, receiving};
use octet_calls::{buffers, loads, pages, texts};
use words::{Unanswered, Words};

// Room for an answer.
type Text = ArrayString<512>;

// The call answers this, in the lent writer of this name.
macro_rules! answers {
    ($rt:ident, $out:ident, $call:expr, $want:expr) => {
        let mut $out = Text::new();
        assert!($rt; $call.is_ok());
        assert_eq!($rt; $out.as_str(), $want);
    };
}

#[test]
fn of_stations(rt: HostRuntime) {
    let mut kept = Kept::new();
    let station = &mut kept.station;
    answers!(
        rt,
        out,
        station_calls::plain("role", &mut Words::of("other controlling"), &mut out),
        "controlled"
    );
    answers!(
        rt,
        out,
        station_calls::call(
            &mut Words::of("new controlled both 65534 0 2 2 3"),
            station,
            &mut out
        ),
        "made"
    );
    answers!(
        rt,
        out,
        station_calls::call(
            &mut Words::of("new controlled both 0 0 2 2 3"),
            station,
            &mut out
        ),
        "refused 3"
    );
    answers!(
        rt,
        out,
        station_calls::call(&mut Words::of("show"), station, &mut out),
        "controlled both 65534 0 2 2 3"
    );
}

#[test]
fn of_frames(rt: HostRuntime) {
    answers!(
        rt,
        out,
        elements::call("frq", &mut Words::of("127 1"), &mut out),
        "yes"
    );
    answers!(
        rt,
        out,
        elements::call("sizes", &mut Words::of("new 0 2 3"), &mut out),
        "refused 2"
    );
    answers!(
        rt,
        out,
        frames::call(
            "frame",
            &mut Words::of("type_id section_ready 300 513 9 2 0 0"),
            &mut out
        ),
        "121"
    );
    answers!(
        rt,
        out,
        making::call(&mut Words::of("sc 1 0 100 7 1 0 16"), &mut out),
        "refused 7"
    );
    answers!(
        rt,
        out,
        parts::call("segment", &mut Words::of("2 0 10 20 30"), &mut out),
        "10 20"
    );
    answers!(
        rt,
        out,
        bodies::call(&mut Words::of("write 4 sc 100 258 4 2 5"), &mut out),
        "wrote 4: 2 1 4 82"
    );
}

#[test]
fn of_machines(rt: HostRuntime) {
    let mut kept = Kept::new();
    answers!(
        rt,
        out,
        station_calls::call(
            &mut Words::of("set controlled control 1 0 2 2 3"),
            &mut kept.station,
            &mut out
        ),
        "set"
    );
    answers!(
        rt,
        out,
        providing::call(&mut Words::of("set done 0"), &mut kept, &mut out),
        "set"
    );
    answers!(
        rt,
        out,
        providing::decide(&mut Words::of("on_sc 3 2 0"), &mut out),
        "running section_ready 1"
    );
    answers!(
        rt,
        out,
        receiving::call(&mut Words::of("new 100 7"), &mut kept, &mut out),
        "made"
    );
    answers!(
        rt,
        out,
        receiving::call(&mut Words::of("start"), &mut kept, &mut out),
        "send: sc 100 7 0 1 0"
    );
}

#[test]
fn of_the_directory(rt: HostRuntime) {
    let mut kept = Kept::new();
    answers!(
        rt,
        out,
        station_calls::call(
            &mut Words::of("set controlled control 1 0 2 2 3"),
            &mut kept.station,
            &mut out
        ),
        "set"
    );
    answers!(
        rt,
        out,
        calling::call(&mut Words::of("new"), &mut kept, &mut out),
        "made"
    );
    answers!(
        rt,
        out,
        calling::call(&mut Words::of("start 100"), &mut kept, &mut out),
        "send: sc 100 0 0 0 0"
    );
    answers!(
        rt,
        out,
        paging::packed(&mut Words::of("pages"), &kept.file, &mut out),
        "0"
    );
    answers!(
        rt,
        out,
        paging::packed(&mut Words::of("entry 0 0"), &kept.file, &mut out),
        "refused 9"
    );
    answers!(
        rt,
        out,
        paging::listed(&mut Words::of("page 100 0"), &kept.file, &mut out),
        "refused 9"
    );
}

#[test]
fn of_octets(rt: HostRuntime) {
    let mut kept = Kept::new();
    answers!(
        rt,
        out,
        buffers::call(&mut Words::of("is 10 20 30"), &mut kept.store, &mut out),
        "3"
    );
    answers!(
        rt,
        out,
        buffers::call(
            &mut Words::of("sum_after 30 2 1"),
            &mut kept.store,
            &mut out
        ),
        "60"
    );
    answers!(
        rt,
        out,
        buffers::call(&mut Words::of("is"), &mut kept.store, &mut out),
        "0"
    );
    answers!(
        rt,
        out,
        pages::add(
            &mut Words::of("100 7 8192 0 0 0 0 43465 41 0 0 16 0 17 2 11 26"),
            &mut kept.store,
            &mut out
        ),
        "17"
    );
    answers!(
        rt,
        out,
        pages::print(&mut Words::of("0"), &[], &mut out),
        "0 kept 0"
    );
    answers!(
        rt,
        out,
        loads::call(&mut Words::of("step 0"), &mut kept, &mut out),
        "1013904223 60"
    );
    answers!(
        rt,
        out,
        texts::call(
            b"script read \"2 100 7 2 200 100 1 1\\n\"",
            &mut kept,
            &mut out
        ),
        "100 7 2 1"
    );
    answers!(
        rt,
        out,
        texts::call(b"load text \"0 4 3\\n\"", &mut kept, &mut out),
        "\"2 100 7 4 60 71 209 170 3 1 1 1\\n\""
    );
}

#[test]
fn of_transfers(rt: HostRuntime) {
    let mut kept = Kept::new();
    answers!(
        rt,
        out,
        buffers::call(&mut Words::of("is 200 100"), &mut kept.file, &mut out),
        "2"
    );
    answers!(
        rt,
        out,
        buffers::call(&mut Words::of("is 1"), &mut kept.damage, &mut out),
        "1"
    );
    answers!(
        rt,
        out,
        buffers::call(&mut Words::of("is 0 0 9"), &mut kept.store, &mut out),
        "3"
    );
    answers!(
        rt,
        out,
        party_calls::script_line(&mut Words::of("line R sc 100 7 1 6 0"), &mut out),
        "R 122 1 6 0"
    );
    answers!(
        rt,
        out,
        party_calls::call(
            &mut Words::of("new 2 2 3 1 100 7 controlled"),
            &mut kept,
            &mut out
        ),
        "made"
    );
    answers!(
        rt,
        out,
        party_calls::run(
            &mut Words::of("13 2 2 3 1 100 7 controlled"),
            &mut kept,
            &mut out
        ),
        "whole 2 frames 13"
    );
}

#[test]
fn of_windows(rt: HostRuntime) {
    let mut kept = Kept::new();
    answers!(
        rt,
        out,
        window_calls::call(&mut Words::of("show"), &mut kept, &mut out),
        "width 0 count 0 place 0"
    );
    answers!(
        rt,
        out,
        window_calls::call(&mut Words::of("totals"), &mut kept, &mut out),
        "refused 33"
    );
    answers!(
        rt,
        out,
        window_calls::record(&mut Words::of("whole 2 13 0"), &mut out),
        "2 13 0 1"
    );
}

#[test]
fn of_values(rt: HostRuntime) {
    let mut kept = Nos { value: 1 };
    answers!(rt, out, shown::answer(Nos { value: 4 }, &mut out), "4");
    answers!(rt, out, shown::answer_word("equal", &mut out), "equal");
    answers!(
        rt,
        out,
        shown::keep(Ok(Nos { value: 2 }), &mut kept, "made", &mut out),
        "made"
    );
    answers!(
        rt,
        out,
        shown::keep(Err(FtError::StoreFull), &mut kept, "made", &mut out),
        "refused 24"
    );
    assert_eq!(rt; kept.value, 2);
}

// What stands behind a call is left to read, and a call does not look at it.
#[test]
fn leaves_the_words_behind(rt: HostRuntime) {
    let mut words = Words::of("on_sc 3 1 0 on_sc 3 2 0");
    answers!(
        rt,
        out,
        providing::decide(&mut words, &mut out),
        "running file_ready"
    );
    assert!(rt; !words.is_at_end());
    answers!(
        rt,
        out,
        providing::decide(&mut words, &mut out),
        "running section_ready 1"
    );
    assert!(rt; words.is_at_end());
}

// Where the lent writer has no room, the call says so.
#[test]
fn says_what_is_unwritten(rt: HostRuntime) {
    let mut kept = Kept::new();
    let mut small = ArrayString::<10>::new();
    let answer = window_calls::call(&mut Words::of("show"), &mut kept, &mut small);
    assert!(rt; answer == Err(Unanswered::Unwritten));
}
