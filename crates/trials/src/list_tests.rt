// Lists of calls, accepted and declined, on a small book; the numbers are worked out by hand.
use books::list::ListBook;
use books::record::Record;
use checks::refusal::PlanRefusal;
use criteria::by::By;
use criteria::floor::Floor;
use criteria::mean::Mean;
use following::call::{Reply, RoundCall, Turn};
use rounds::refusal::RoundRefusal;
use service::call::{Call, CallRefusal, Request};
use service::serve::serve;
use sheets::refusal::NoteRefusal;
use sheets::sheet::Sheet;
use std::alloc::{AllocError, Global};
use std::process::Abort;
use std::test::Fail;

// A door of two parts: whole (0) it may be left, and breaks (1) in one part of two, or be braced for 3 and stay whole;
// broken it is mended for 10.
const DOOR: [Record; 4] = [
    Record {
        condition: 0,
        remedy: 0,
        next: 0,
        share: 1,
        amount: 0,
    },
    Record {
        condition: 0,
        remedy: 0,
        next: 1,
        share: 1,
        amount: 0,
    },
    Record {
        condition: 0,
        remedy: 1,
        next: 0,
        share: 2,
        amount: -3,
    },
    Record {
        condition: 1,
        remedy: 1,
        next: 0,
        share: 2,
        amount: -10,
    },
];

// Room for two visits, which stands full of sevens.
fn plan(heap: Global, criterion: By, visits: usize) -> Result<Request<By, i64>, AllocError> {
    let values = vec![in heap; 7; 6]?;
    let remedies = vec![in heap; 7; 4]?;
    Ok(Request::new(Call::Plan {
        criterion,
        visits,
        values,
        remedies,
    }))
}

fn judgement(heap: Global, remedies: [u8; 2]) -> Result<Request<By, i64>, AllocError> {
    let values = vec![in heap; 7; 4]?;
    let remedies = Vec::from_array(heap, remedies)?;
    Ok(Request::new(Call::Judge {
        criterion: By::Floor(Floor),
        visits: 1,
        values,
        remedies,
    }))
}

fn door(heap: Global) -> Result<Sheet<ListBook<'static>>, Fail> {
    let book = ListBook::new(2, 2, 2, &DOOR, &[0; 2]).map_err(|_| Fail::new("no book"))?;
    Sheet::new(heap, book).map_err(|_| Fail::new("no memory"))
}

fn values_of(request: &Request<By, i64>) -> &[i64] {
    match &request.call {
        Call::Judge { values, .. } | Call::Plan { values, .. } => values.as_slice(),
        _ => &[],
    }
}

// Serves the requests on a new sheet over the door, and compares the answers.
fn served(
    rt: &impl Abort,
    heap: Global,
    requests: &mut [Request<By, i64>],
    answers: &[Result<usize, CallRefusal>],
) -> Result<(), Fail> {
    serve(&mut door(heap)?, requests);
    for (request, answer) in requests.iter().zip(answers) {
        assert_eq!(rt; request.answer, Some(*answer));
    }
    Ok(())
}

// A plan answers under the notes that stand when it comes; declined, its table stays full of sevens.
#[test]
fn under_the_notes(rt: HostRuntime) -> Result<(), Fail> {
    let by_mean = plan(rt.alloc(), By::Mean(Mean::of(2)), 2)?;
    let by_floor = plan(rt.alloc(), By::Floor(Floor), 2)?;
    let bar = Request::new(Call::Bar {
        condition: 1,
        remedy: 1,
        first: 2,
        last: 2,
    });
    let mut requests = [by_mean, bar, by_floor];
    let stuck = CallRefusal::Plan(PlanRefusal::Stuck {
        visit: 2,
        condition: 1,
    });
    served(&rt, rt.alloc(), &mut requests, &[Ok(4), Ok(1), Err(stuck)])?;
    let [planned, _, declined] = &requests;
    assert_eq!(rt; values_of(planned), [-12, -40, 0, -20, 0, 0].as_slice());
    assert_eq!(rt; values_of(declined), [7; 6].as_slice());
    Ok(())
}

// After a call that is declined the next are performed like any others.
#[test]
fn after_declined(rt: HostRuntime) -> Result<(), Fail> {
    let misnamed = judgement(rt.alloc(), [0, 0])?;
    let judged = judgement(rt.alloc(), [0, 1])?;
    let surcharge = Request::new(Call::Surcharge {
        remedy: 0,
        amount: -4,
        first: 1,
        last: 1,
    });
    let lift = Request::new(Call::Lift { place: 1 });
    let mut requests = [lift, surcharge, misnamed, judged];
    let unknown = CallRefusal::Note(NoteRefusal::Unknown);
    let rule = CallRefusal::Plan(PlanRefusal::Rule {
        visit: 1,
        condition: 1,
        remedy: 0,
    });
    served(
        &rt,
        rt.alloc(),
        &mut requests,
        &[Err(unknown), Ok(1), Err(rule), Ok(2)],
    )?;
    let [_, _, _, judged] = &requests;
    assert_eq!(rt; values_of(judged), [-4, -10, 0, 0].as_slice());
    Ok(())
}

const CALLS: [RoundCall; 7] = [
    RoundCall::Treat,
    RoundCall::Report { next: 1 },
    RoundCall::Report { next: 0 },
    RoundCall::Treat,
    RoundCall::Report { next: 1 },
    RoundCall::Settle,
    RoundCall::Treat,
];

fn round(heap: Global, condition: usize) -> Result<Request<By, i64>, AllocError> {
    let values = vec![in heap; 7; 6]?;
    let remedies = vec![in heap; 7; 4]?;
    let mut turns = Vec::new(heap);
    for call in CALLS {
        turns.push(Turn { call, reply: None })?;
    }
    Ok(Request::new(Call::Round {
        visits: 2,
        condition,
        values,
        remedies,
        turns,
    }))
}

fn reply_of(request: &Request<By, i64>, turn: usize) -> Option<Reply> {
    match &request.call {
        Call::Round { turns, .. } => turns.get(turn)?.reply,
        _ => None,
    }
}

// The floor braces at visit 1 and leaves at visit 2; a door that is braced does not break.
#[test]
fn led_round(rt: HostRuntime) -> Result<(), Fail> {
    let mut led = [round(rt.alloc(), 0)?];
    served(&rt, rt.alloc(), &mut led, &[Ok(6)])?;
    let replies = [
        Some(Reply::Treated { remedy: 1 }),
        Some(Reply::Declined(RoundRefusal::Impossible)),
        Some(Reply::Reported),
        Some(Reply::Treated { remedy: 0 }),
        Some(Reply::Reported),
        Some(Reply::Settled { total: -3 }),
        None,
    ];
    for (turn, reply) in replies.iter().enumerate() {
        assert_eq!(rt; reply_of(&led[0], turn), *reply);
    }
    Ok(())
}
