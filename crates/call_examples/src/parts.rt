// What the engines are made of, and the adder.
use crate::{refused, state};
use arbiter::engine::ServedCycle;
use arbiter::question::RefusedReading;
use arbiter::refusal::{Buffer, Refusal};
use arbiter::{
    Decision, Granted, State, decide, first_station, headed, idle, opened, past, question,
};
use search::{first_above, first_nonzero, first_one, highest};
use std::fmt::Write;
use std::test::Fail;
use thermometer::adder::{self, Picks, Sum};

#[test]
fn adds(rt: HostRuntime) -> Result<(), Fail> {
    let full = Sum {
        code: 0b11,
        cut: false,
    };
    assert!(rt; adder::add(2, 0b01, 0b01) == Ok(full));
    assert!(rt; adder::add(2, 0b11, 0b01) == Ok(Sum { cut: true, ..full }));
    assert!(rt; refused(adder::add(2, 0b10, 0b01)) == (13, 0));
    assert!(rt; adder::code(3) == 0b111);
    assert!(rt; adder::count(0b111) == 3);
    assert!(rt; Picks::new(3).code == 0b111);
    Ok(())
}

#[test]
fn answers(rt: HostRuntime) -> Result<(), Fail> {
    assert!(rt; opened(Err(Refusal::Picks)).state == State::default());
    let mut s = state(4, 2, None);
    assert!(rt; s.settle(Err(Refusal::Acknowledge)) == Err(Refusal::Acknowledge));
    assert!(rt; s == state(4, 2, None));
    assert!(rt; s.settle(Ok(headed(Some(1)))) == Ok(NOBODY));
    assert!(rt; s == state(4, 2, Some(1)));
    let bit = Refusal::NotABit(Buffer::Requests, 2);
    assert!(rt; (bit.number(), bit.place()) == (8, 2));
    assert!(rt; (Refusal::Picks.number(), Refusal::Picks.place()) == (3, 0));
    Ok(())
}

// Nobody is granted, and no more are pending.
const NOBODY: Granted = Granted {
    count: 0,
    more: false,
};

#[test]
fn says_why(rt: HostRuntime) -> Result<(), Fail> {
    let mut words = String::new(rt.alloc());
    write!(words, "{}; ", Refusal::Width)?;
    write!(words, "{}", Refusal::NotABit(Buffer::Requests, 7))?;
    assert!(rt;
        words.as_str() == "the width must be 1 to 1,024; byte 7 of the requests is neither 0 nor 1"
    );
    Ok(())
}

#[test]
fn decides(rt: HostRuntime) -> Result<(), Fail> {
    assert!(rt; (idle(4, Some(1)), idle(4, None)) == (headed(Some(1)), headed(Some(3))));
    let decision = Decision {
        count: 2,
        next: Some(0),
        more: true,
    };
    assert!(rt; decide(4, Some(2), 2, Some(3), true) == decision);
    assert!(rt; (past(4, 2), past(4, 3), past(4, 9)) == (3, 0, 0));
    assert!(rt; (first_station(Some(2)), first_station(None)) == (2, 0));
    Ok(())
}

#[test]
fn pends(rt: HostRuntime) -> Result<(), Fail> {
    let cycle = ServedCycle {
        picks: 1,
        head: None,
        requests: &[1, 1],
        grants: &mut [1, 0],
    };
    assert!(rt; cycle.pending(1) == true);
    assert!(rt; cycle.pending(0) == false);
    Ok(())
}

#[test]
fn searches(rt: HostRuntime) -> Result<(), Fail> {
    assert!(rt; first_one(1, &[1, 0, 1]) == Some(2));
    assert!(rt; first_nonzero(1, &[1, 0, 7]) == Some(2));
    assert!(rt; first_above(1, 1, &[2, 1, 3]) == Some(2));
    assert!(rt; highest(&[0, 1, 7, 0]) == 7);
    Ok(())
}

#[test]
fn asks_one(rt: HostRuntime) -> Result<(), Fail> {
    assert!(rt; question::refuse_unless(false, Refusal::Code) == Err(Refusal::Code));
    assert!(rt; question::width(1024) == Ok(()));
    assert!(rt; (refused(question::width(0)), refused(question::width(1025))) == ((1, 0), (1, 0)));
    assert!(rt; (question::picks(4, 4), refused(question::picks(4, 5))) == (Ok(()), (3, 0)));
    assert!(rt; (question::one_pick(1), refused(question::one_pick(2))) == (Ok(()), (3, 0)));
    assert!(rt; (question::head(4, None), question::head(4, Some(3))) == (Ok(()), Ok(())));
    assert!(rt; refused(question::head(4, Some(4))) == (4, 0));
    assert!(rt; refused(question::read_length(4, 5)) == (5, 0));
    assert!(rt; refused(question::write_length(4, 3)) == (6, 0));
    Ok(())
}

#[test]
fn asks_several(rt: HostRuntime) -> Result<(), Fail> {
    assert!(rt; refused(question::bits(Buffer::Requests, 2, &[7, 0, 1, 2])) == (8, 3));
    assert!(rt; question::read(Buffer::Image, &[0, 1]) == Ok(1));
    assert!(rt; refused_reading(question::read(Buffer::Image, &[0, 2])) == (8, 1, 2));
    assert!(rt; refused_reading(question::read(Buffer::Image, &[1, 2, 255, 0])) == (8, 1, 255));
    assert!(rt; refused(question::state(&state(0, 9, None))) == (1, 0));
    assert!(rt; refused(question::write(&state(4, 2, None), 6, 5)) == (6, 0));
    assert!(rt; question::cycle(2, &[0, 1], 2) == Ok(1));
    assert!(rt; refused_reading(question::cycle(2, &[0, 2], 3)) == (6, 0, 0));
    assert!(rt; refused_reading(question::cycle(2, &[0, 2], 2)) == (8, 1, 2));
    Ok(())
}

#[test]
fn goes_on_as_a_refusal(rt: HostRuntime) -> Result<(), Fail> {
    let above = RefusedReading {
        refusal: Refusal::NotABit(Buffer::Image, 1),
        highest: 2,
    };
    assert!(rt; question::read(Buffer::Image, &[0, 2]) == Err(above));
    assert!(rt; Refusal::from(above) == above.refusal);
    assert!(rt; RefusedReading::from(Refusal::Width).highest == 0);
    Ok(())
}

// The number, the place and the highest byte of a refused reading; 0 for each where there is none.
fn refused_reading(reading: Result<u8, RefusedReading>) -> (usize, usize, u8) {
    match reading {
        Ok(_) => (0, 0, 0),
        Err(RefusedReading { refusal, highest }) => (refusal.number(), refusal.place(), highest),
    }
}
