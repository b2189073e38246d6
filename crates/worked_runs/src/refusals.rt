//! Positions and reports that are read, and the first thing wrong with others.
use certificate::{Pay, PositionText, StageMethod, TextError, read};
use position::{AnyGame, position};
use std::test::Fail;

const PUSH: &str =
    "{\"game\":\"oshi_zumo\",\"size\":1,\"one\":2,\"two\":1,\"least\":1,\"place\":0,\"gap\":0,\"weight\":8192,\"turns\":0,\"visits\":0,\"rows\":1,\"workers\":1}";

const LINEAR: &str =
    "{\"game\":\"oshi_zumo\",\"size\":1,\"one\":2,\"two\":1,\"least\":1,\"place\":0,\"gap\":0,\"weight\":8192,\"turns\":0,\"visits\":0,\"rows\":1,\"workers\":1,\"stages\":\"linear\"}";

const PRIZES: &str =
    "{\"game\":\"goofspiel\",\"one\":[1,3],\"two\":[2,3],\"prizes\":[1,1],\"score\":0,\"pay\":\"prizes\",\
         \"gap\":0,\"weight\":8192,\"turns\":0,\"visits\":0,\"rows\":1,\"workers\":1}";

const PAID_TURN: &str = "{\"game\":\"table\",\"states\":[[[[[1,360360,2]],1],[1,1]],0],\
         \"gap\":0,\"weight\":8192,\"turns\":0,\"visits\":0,\"rows\":1,\"workers\":1}";

// Where nothing is said of the stages, they are solved by regret matching.
#[test]
fn reads_what_is_asked(rt: HostRuntime) -> Result<(), Fail> {
    let regret = position(rt.alloc(), PUSH.as_bytes())?;
    assert!(rt; matches!(regret.game(), AnyGame::OshiZumo(_)));
    assert_eq!(rt; regret.ask.weight, 8192);
    assert_eq!(rt; regret.ask.stages, StageMethod::Regret);
    let linear = position(rt.alloc(), LINEAR.as_bytes())?;
    assert_eq!(rt; linear.ask.stages, StageMethod::Linear);
    Ok(())
}

#[test]
fn reads_what_is_paid_on_the_way(rt: HostRuntime) -> Result<(), Fail> {
    let prizes = position(rt.alloc(), PRIZES.as_bytes())?;
    assert!(rt;
        matches!(
            prizes.text,
            PositionText::Goofspiel {
                pay: Pay::Prizes,
                ..
            }
        )
    );
    let table = position(rt.alloc(), PAID_TURN.as_bytes())?;
    assert!(rt; matches!(table.game(), AnyGame::Table(_)));
    assert_eq!(rt; table.totals.as_slice(), [0, 2, 0, 0].as_slice());
    Ok(())
}

#[test]
fn tells_the_first_refusal(rt: HostRuntime) {
    let cases = [
        ("", 10),
        ("[]", 11),
        ("{}", 12),
        ("{\"game\":\"tron\",\"x\":1}", 13),
        ("{\"game\":1}", 14),
        ("{\"game\":\"tron\",\"height\":1.0}", 14),
        ("{\"game\":\"tron\",\"height\":256}", 15),
        ("{\"game\":\"goofspiel\",\"one\":[256,1.0]}", 14),
        ("{\"game\":\"chess\"}", 16),
        ("{\"game\":\"table\",\"states\":[[[[[1,1,1,1]]]]]}", 15),
        ("{\"game\":\"table\",\"states\":[[[[[1,1,1000001]]]]]}", 15),
        (
            "{\"game\":\"table\",\"states\":[[[[[1,360360,4001]]]],0],\
                 \"gap\":0,\"weight\":8192,\"turns\":0,\"visits\":0,\"rows\":1,\"workers\":1}",
            90,
        ),
        (
            "{\"game\":\"oshi_zumo\",\"size\":9,\"one\":32,\"two\":1,\"least\":1,\"place\":0,\"gap\":0,\"weight\":8192,\"turns\":0,\"visits\":0,\"rows\":1,\"workers\":1}",
            31,
        ),
    ];
    for (text, code) in cases {
        assert!(rt;
            matches!(position(rt.alloc(), text.as_bytes()), Err(e) if e.code() == code),
            "{text}"
        );
    }
}

#[test]
fn tells_the_first_fault(rt: HostRuntime) {
    let cases = [
        ("dosolve report 1", TextError::Head),
        ("dosolve report 1\n", TextError::Short),
        (
            "dosolve report 1\ngame pursuit 1 - 0 0 1\n",
            TextError::Line { number: 2 },
        ),
        (
            "dosolve report 1\ngame goofspiel 01 1 1 0 draw\n",
            TextError::Line { number: 2 },
        ),
        (
            "dosolve report 1\ngame goofspiel 01 1 1 0 win\n",
            TextError::Number { number: 2 },
        ),
        (
            "dosolve report 1\ngame oshi_zumo 1 2 1 256 0\n",
            TextError::Number { number: 2 },
        ),
        (
            "dosolve report 1\ngame tron 1 3 - 0 2\nweight 8192\nturns 0\nasked 0\nresolution 0\noutcome full\nlower 0\nupper 0\nspent 0\none 2\n5 0 1\n5 0 1\n",
            TextError::Order { number: 13 },
        ),
        (
            "dosolve report 1\ngame tron 1 3 - 0 2\nweight 8192\nturns 0\nasked 0\nresolution 0\noutcome full\nlower 0\nupper 0\nspent 0\none 0\ntwo 0\nend\n\n",
            TextError::Tail,
        ),
    ];
    for (text, fault) in cases {
        assert!(rt;
            matches!(read(rt.alloc(), text.as_bytes()), Err(e) if e == fault),
            "{text}"
        );
    }
}
