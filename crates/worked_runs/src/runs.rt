use crate::calls::{calls_for, moved};
use commands::run::run;
use oracle_search::OpenGate;
use position::{MemorySink, MemorySource};
use std::alloc::Global;
use std::process::Abort;
use std::test::Fail;
use std::thread::Threads;

// One has the cards 1 and 3, Two 2 and 3, and both prizes count one.
const POSITION: &str =
    "{\"game\":\"goofspiel\",\"one\":[1,3],\"two\":[2,3],\"prizes\":[1,1],\"score\":0,\"pay\":\"margin\",\"gap\":0,\"weight\":65536,\"turns\":1000,\"visits\":1000,\"rows\":1024,\"workers\":1}\n";

const REPORT: &str =
    "dosolve report 1\ngame goofspiel 1,3 2,3 1,1 0 margin\nweight 65536\nturns 1000\nasked 0\nresolution 62502\noutcome closed\nlower -500000\nupper -500000\nspent 3\none 5\n67127548 -1000000 65536\n67143933 0 65536\n268454139 0 65536\n268470523 -1000000 65536\n335595772 -500000 32768 32768\ntwo 5\n67127548 -1000000 65536\n67143933 0 65536\n268454139 0 65536\n268470523 -1000000 65536\n335595772 -500000 32768 32768\nend\n";

const VERDICT: &str = "accepted -500000 -500000 closed\n";

const WORST: &str = "exploit one exact -2147483648 65536 2\n";

const GAMES: &str = "turn 1 2 0\nturn 3 3 0\npayoff -1\ngames 2 sum -2 least -1 most -1\n";

// One has more coins than the narrow limits allow, which hold where stages are not linear. One bids 20 each time.
const WIDE: &str =
    "{\"game\":\"oshi_zumo\",\"size\":0,\"one\":40,\"two\":20,\"least\":20,\"place\":0,\
         \"gap\":0,\"weight\":65536,\"turns\":1000,\"visits\":1000,\"rows\":1024,\"workers\":1,\
         \"stages\":\"linear\"}\n";

const WIDE_REPORT: &str =
    "dosolve report 3\ngame oshi_zumo 0 40 20 20 0\nweight 65536\nturns 1000\nasked 0\nresolution 101264\n\
         outcome closed\nlower 1000000\nupper 1000000\nspent 0\none 2\n66816 1000000 65536\n\
         68116 1000000 65536 0 0 0 0 0 0 0 0 0 0 0 0 0 0 0 0 0 0 0 0\ntwo 0\nend\n";

// Each side has 33 bids, and the weight is one too small for them.
const COARSE: &str =
    "{\"game\":\"oshi_zumo\",\"size\":0,\"one\":41,\"two\":41,\"least\":9,\"place\":0,\
         \"gap\":0,\"weight\":32767,\"turns\":0,\"visits\":0,\"rows\":1,\"workers\":1,\"stages\":\"linear\"}\n";

// What a call of the sink takes at most.
const CHUNK: u32 = 40;

/// The words of a command, its input and how many calls read it, and the status and the text of its answer.
#[derive(Clone, Copy)]
struct Case<'a> {
    words: &'a [&'a str],
    input: &'a str,
    // The end of the input takes a call of its own, and so does the first line of a report.
    reads: u32,
    status: u8,
    text: &'a str,
}

// Runs the command over devices in memory whose calls of these numbers fail, and compares the status and what is written.
fn compare<'a, R: Threads + Abort + Sync>(
    rt: &R,
    alloc: Global,
    case: Case<'a>,
    failing: (&[u32], &[u32]),
    want: (u8, &[u8]),
) -> Result<(), Fail> {
    let mut words = Vec::new(alloc);
    for word in case.words {
        words.push(String::from_str(alloc, word)?)?;
    }
    let input = case.input.as_bytes().to_vec(alloc)?;
    let mut source = MemorySource::new(input, failing.0.to_vec(alloc)?);
    let room = Vec::with_capacity(alloc, 397)?;
    let mut sink = MemorySink::new(room, CHUNK, failing.1.to_vec(alloc)?);
    let status = run(rt, alloc, &words, &mut source, &mut sink, &OpenGate, false);
    assert_eq!(rt; status, want.0, "{}", case.text);
    assert_eq!(rt; sink.written(), want.1);
    Ok(())
}

// Fails each call in turn that the plain run makes, and then the calls behind its last ones, which it does not make.
fn fail_each_call<'a, R: Threads + Abort + Sync>(
    rt: &R,
    alloc: Global,
    case: Case<'a>,
) -> Result<(), Fail> {
    for call in 0..case.reads {
        compare(rt, alloc, case, (&[call], &[]), (6, &[]))?;
    }
    let text = case.text.as_bytes();
    let Ok(writes) = u32::try_from(calls_for(text, CHUNK)) else {
        panic!(rt; "a text takes few calls");
    };
    for call in 0..writes {
        compare(
            rt,
            alloc,
            case,
            (&[], &[call]),
            (7, moved(text, CHUNK, call)),
        )?;
    }
    compare(
        rt,
        alloc,
        case,
        (&[case.reads], &[writes]),
        (case.status, text),
    )
}

// The same for each of the cases.
fn fail_each_of<'a, R: Threads + Abort + Sync>(
    rt: &R,
    alloc: Global,
    cases: &[Case<'a>],
) -> Result<(), Fail> {
    for case in cases {
        fail_each_call(rt, alloc, *case)?;
    }
    Ok(())
}

#[test]
fn solve_over_failing_devices(rt: HostRuntime) -> Result<(), Fail> {
    let case = Case {
        words: &["solve"],
        input: POSITION,
        reads: 2,
        status: 0,
        text: REPORT,
    };
    fail_each_call(&rt, rt.alloc(), case)
}

#[test]
fn check_over_failing_devices(rt: HostRuntime) -> Result<(), Fail> {
    let case = Case {
        words: &["check"],
        input: REPORT,
        reads: 3,
        status: 0,
        text: VERDICT,
    };
    fail_each_call(&rt, rt.alloc(), case)
}

#[test]
fn exploit_over_failing_devices(rt: HostRuntime) -> Result<(), Fail> {
    let case = Case {
        words: &["exploit", "one"],
        input: REPORT,
        reads: 3,
        status: 0,
        text: WORST,
    };
    fail_each_call(&rt, rt.alloc(), case)
}

#[test]
fn play_over_failing_devices(rt: HostRuntime) -> Result<(), Fail> {
    let case = Case {
        words: &["play", "2", "7"],
        input: REPORT,
        reads: 3,
        status: 0,
        text: GAMES,
    };
    fail_each_call(&rt, rt.alloc(), case)
}

#[test]
fn an_end_in_the_middle_of_a_number(rt: HostRuntime) -> Result<(), Fail> {
    let (Some((position, _)), Some((report, _))) = (
        POSITION.split_once("36,\"turns\""),
        REPORT.split_once("768 32768\ntwo"),
    ) else {
        panic!(rt; "both numbers are there");
    };
    let cases = [
        Case {
            words: &["solve"],
            input: position,
            reads: 2,
            status: 2,
            text: "input 10 not json\n",
        },
        Case {
            words: &["bounds"],
            input: position,
            reads: 2,
            status: 2,
            text: "input 10 not json\n",
        },
        Case {
            words: &["check"],
            input: report,
            reads: 3,
            status: 9,
            text: "report short\n",
        },
    ];
    fail_each_of(&rt, rt.alloc(), &cases)
}

#[test]
fn wide_limits_over_failing_devices(rt: HostRuntime) -> Result<(), Fail> {
    let cases = [
        Case {
            words: &["solve"],
            input: WIDE,
            reads: 2,
            status: 0,
            text: WIDE_REPORT,
        },
        Case {
            words: &["check"],
            input: WIDE_REPORT,
            reads: 3,
            status: 0,
            text: "accepted 1000000 1000000 closed\n",
        },
        Case {
            words: &["solve"],
            input: COARSE,
            reads: 2,
            status: 2,
            text: "input 91 weight\n",
        },
    ];
    fail_each_of(&rt, rt.alloc(), &cases)
}
