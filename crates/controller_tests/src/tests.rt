//! The worked cases and edges, on stars and splitters, on hubs and fabrics alike.
use crate::lent::write_first;
use crate::made::{on_fabric, on_hub};
use book::refusal::CallRefusal;
use controller::answer::Answer;
use controller::controller::Controller;
use controller::orders::carry_out;
use network::layout::Layout;
use network::splitter::Splitter;
use network::star::Star;
use plant::Plant;
use plant::fabric::RegisterFabric;
use plant::hub::MirrorHub;
use plant::lightpath::Lightpath;
use reckoning::call::Call;
use reckoning::demand::Demand;
use reckoning::order::{Kind, Order};
use reckoning::session::Session;
use sheet::refusal::SheetRefusal;
use sheet::sheet::Sheet;
use std::alloc::Global;
use std::process::Abort;
use std::test::Fail;

type Outcome = Result<Answer, CallRefusal>;

fn add(number: u32, source: u32, destination: u32, limit: u32) -> Call {
    Call::Admit {
        number,
        source,
        destination,
        limit,
    }
}

fn asked(number: u32, source: u32, destination: u32) -> Demand {
    Demand {
        number,
        source,
        destination,
    }
}

fn admitted(wavelength: u8, moves: u8) -> Outcome {
    Ok(Answer::Admitted { wavelength, moves })
}

fn order(kind: Kind, wavelength: u8, source: u8, destination: u8, session: u32) -> Order {
    Order {
        kind,
        wavelength,
        source,
        destination,
        session,
    }
}

// The other make of plant, which carries out the orders singly, hears the same everywhere.
fn agrees<L: Layout + Drop, P: Plant + Drop, Q: Plant>(
    rt: &impl Abort,
    controller: &Controller<L, P>,
    copy: &Q,
) {
    for w in 0..copy.waves() {
        for b in 0..copy.groups() {
            assert_eq!(rt; controller.heard(w, b), copy.heard(w, b));
        }
    }
}

fn carries_out<Q: Plant>(rt: &impl Abort, orders: &Sheet<Order>, copy: &mut Q) {
    for order in orders.as_slice() {
        assert_eq!(rt; carry_out(*order, copy), Ok(()));
    }
}

/// Calls with their answers; what the last call leaves in the order sheet and the walk list.
#[derive(Drop)]
struct Case<'a> {
    calls: &'a [Call],
    answers: &'a [Outcome],
    orders: &'a [Order],
    walk: &'a [u16],
}

fn written(rt: &impl Abort, orders: &Sheet<Order>, wanted: &[Order]) {
    assert!(rt; orders.as_slice() == wanted);
}

fn walked(rt: &impl Abort, walk: &[u16], wanted: &[u16]) {
    assert!(rt; walk.starts_with(wanted));
    assert_eq!(rt;
        walk.get(wanted.len()).copied(),
        Some(99),
        "the place behind is kept"
    );
}

fn serves_each<L: Layout + Drop, P: Plant + Drop, Q: Plant>(
    rt: &impl Abort,
    alloc: Global,
    controller: &mut Controller<L, P>,
    copy: &mut Q,
    case: &Case,
    orders: &mut Sheet<Order>,
    rows: &mut Sheet<Session>,
    walk: &mut [u16],
) -> Result<(), Fail> {
    assert_eq!(rt; case.calls.len(), case.answers.len());
    for (call, answer) in case.calls.iter().zip(case.answers) {
        orders.clear();
        let answers = controller.serve(alloc, &[*call], orders, rows, walk)?;
        assert_eq!(rt; answers.as_slice().first(), Some(answer));
        carries_out(rt, orders, copy);
        agrees(rt, controller, copy);
    }
    Ok(())
}

fn serves<L: Layout + Drop, P: Plant + Drop, Q: Plant + Drop>(
    rt: &impl Abort,
    alloc: Global,
    mut controller: Controller<L, P>,
    mut copy: Q,
    case: &Case,
) -> Result<(), Fail> {
    let mut order_places = [Order::default(); 63];
    let mut row_places = [Session::default(); 32];
    let mut walk = [99u16; 64];
    let mut orders = Sheet::new(&mut order_places);
    let mut rows = Sheet::new(&mut row_places);
    serves_each(
        rt,
        alloc,
        &mut controller,
        &mut copy,
        case,
        &mut orders,
        &mut rows,
        &mut walk,
    )?;
    written(rt, &orders, case.orders);
    walked(rt, &walk, case.walk);
    Ok(())
}

// Under both makes, each with the other as its copy. The layout is made twice, since a controller holds its own.
fn on_both<L: Layout + Drop>(
    rt: &impl Abort,
    alloc: Global,
    layouts: [L; 2],
    waves: u8,
    groups: u8,
    case: &Case,
) -> Result<(), Fail> {
    let [first, second] = layouts;
    let mut registers = [7u8; 1024];
    let copy = RegisterFabric::new(&mut registers, waves, groups);
    serves(rt, alloc, on_hub(first, waves, groups), copy, case)?;
    let mut registers = [7u8; 1024];
    let controller = on_fabric(second, waves, groups, &mut registers);
    serves(rt, alloc, controller, MirrorHub::new(waves, groups), case)
}

fn on_star(
    rt: &impl Abort,
    alloc: Global,
    ports: &[u8],
    waves: u8,
    groups: u8,
    case: &Case,
) -> Result<(), Fail> {
    let layouts = [Star::new(ports), Star::new(ports)];
    on_both(rt, alloc, layouts, waves, groups, case)
}

fn on_splitter(
    rt: &impl Abort,
    alloc: Global,
    ports: &[u8],
    entries: &[u8],
    branches: u8,
    waves: u8,
    case: &Case,
) -> Result<(), Fail> {
    let layouts = [
        Splitter::new(ports, entries, branches),
        Splitter::new(ports, entries, branches),
    ];
    on_both(rt, alloc, layouts, waves, branches, case)
}

#[test]
fn a_chain_moves(rt: HostRuntime) -> Result<(), Fail> {
    let case = Case {
        calls: &[
            add(1, 0, 1, 3),
            add(2, 1, 2, 3),
            add(3, 0, 2, 3),
            add(4, 3, 1, 3),
            Call::Release { number: 3 },
            Call::Quote {
                number: 5,
                source: 3,
                destination: 2,
            },
            add(5, 3, 2, 0),
            add(5, 3, 2, 3),
        ],
        answers: &[
            admitted(0, 0),
            admitted(0, 0),
            admitted(1, 0),
            admitted(1, 0),
            Ok(Answer::Released { wavelength: 1 }),
            Ok(Answer::Quoted {
                wavelength: 0,
                moves: 1,
            }),
            Err(CallRefusal::TooManyMoves),
            admitted(0, 1),
        ],
        orders: &[
            order(Kind::Darken, 0, 1, 2, 2),
            order(Kind::Light, 1, 1, 2, 2),
            order(Kind::Light, 0, 3, 2, 5),
        ],
        walk: &[35, 0, 1],
    };
    on_star(&rt, rt.alloc(), &[2, 2, 2, 2], 2, 4, &case)
}

#[test]
fn the_source_chain_moves_on_a_tie(rt: HostRuntime) -> Result<(), Fail> {
    let case = Case {
        calls: &[
            add(8, 0, 2, 3),
            add(1, 0, 1, 3),
            Call::Release { number: 8 },
            add(2, 2, 3, 3),
            add(3, 0, 3, 3),
        ],
        answers: &[
            admitted(0, 0),
            admitted(1, 0),
            Ok(Answer::Released { wavelength: 0 }),
            admitted(0, 0),
            admitted(1, 1),
        ],
        orders: &[
            order(Kind::Darken, 1, 0, 1, 1),
            order(Kind::Light, 0, 0, 1, 1),
            order(Kind::Light, 1, 0, 3, 3),
        ],
        walk: &[32, 2],
    };
    on_star(&rt, rt.alloc(), &[2, 2, 2, 2], 2, 4, &case)
}

#[test]
fn three_move_at_once(rt: HostRuntime) -> Result<(), Fail> {
    let case = Case {
        calls: &[
            add(1, 2, 1, 3),
            add(2, 1, 2, 3),
            add(3, 3, 0, 3),
            add(4, 0, 1, 3),
            add(5, 2, 3, 3),
            add(6, 1, 0, 3),
            add(7, 0, 2, 3),
        ],
        answers: &[
            admitted(0, 0),
            admitted(0, 0),
            admitted(0, 0),
            admitted(1, 0),
            admitted(1, 0),
            admitted(1, 0),
            admitted(1, 3),
        ],
        orders: &[
            order(Kind::Darken, 1, 2, 3, 5),
            order(Kind::Darken, 0, 2, 1, 1),
            order(Kind::Light, 0, 2, 3, 5),
            order(Kind::Darken, 1, 0, 1, 4),
            order(Kind::Light, 1, 2, 1, 1),
            order(Kind::Light, 0, 0, 1, 4),
            order(Kind::Light, 1, 0, 2, 7),
        ],
        walk: &[32, 2, 34, 1, 33, 3],
    };
    on_star(&rt, rt.alloc(), &[2, 2, 2, 2], 2, 4, &case)
}

#[test]
fn no_third_wavelength_is_needed(rt: HostRuntime) -> Result<(), Fail> {
    let case = Case {
        calls: &[
            add(1, 0, 1, 2),
            add(2, 1, 0, 2),
            add(3, 0, 2, 2),
            add(4, 2, 0, 2),
            add(5, 1, 2, 2),
            add(6, 2, 1, 2),
        ],
        answers: &[
            admitted(0, 0),
            admitted(0, 0),
            admitted(1, 0),
            admitted(1, 0),
            admitted(0, 2),
            admitted(1, 0),
        ],
        orders: &[order(Kind::Light, 1, 2, 1, 6)],
        walk: &[1, 34, 32, 0],
    };
    on_star(&rt, rt.alloc(), &[2, 2, 2], 2, 3, &case)
}

#[test]
fn ten_sessions_of_five_sites(rt: HostRuntime) -> Result<(), Fail> {
    let case = Case {
        calls: &[
            add(1, 0, 1, 4),
            add(2, 1, 2, 4),
            add(3, 4, 0, 4),
            add(4, 3, 0, 4),
            add(5, 2, 4, 4),
            add(6, 3, 1, 4),
            add(7, 0, 2, 4),
            add(8, 1, 4, 4),
            add(9, 2, 3, 4),
            add(10, 4, 3, 4),
            Call::Where { number: 4 },
        ],
        answers: &[
            admitted(0, 0),
            admitted(0, 0),
            admitted(0, 0),
            admitted(1, 0),
            admitted(0, 0),
            admitted(0, 1),
            admitted(0, 1),
            admitted(0, 1),
            admitted(0, 0),
            admitted(1, 0),
            Ok(Answer::Found {
                wavelength: 1,
                source: 3,
                destination: 0,
            }),
        ],
        orders: &[],
        walk: &[33, 0, 32, 3, 35, 4, 2],
    };
    on_star(&rt, rt.alloc(), &[2; 5], 2, 5, &case)
}

#[test]
fn a_branch_shares_its_trunks(rt: HostRuntime) -> Result<(), Fail> {
    let two = Case {
        calls: &[add(1, 0, 1, 1), add(2, 1, 0, 1)],
        answers: &[admitted(0, 0), admitted(1, 0)],
        orders: &[order(Kind::Light, 1, 0, 0, 2)],
        walk: &[],
    };
    on_splitter(&rt, rt.alloc(), &[1; 4], &[0, 0, 1, 1], 2, 2, &two)?;
    let one = Case {
        calls: &[add(1, 0, 1, 1), add(2, 1, 0, 1)],
        answers: &[admitted(0, 0), Err(CallRefusal::SourceFull)],
        orders: &[],
        walk: &[],
    };
    on_splitter(&rt, rt.alloc(), &[1; 4], &[0, 0, 1, 1], 2, 1, &one)
}

#[test]
fn one_wavelength(rt: HostRuntime) -> Result<(), Fail> {
    let case = Case {
        calls: &[
            add(1, 0, 1, 2),
            add(2, 0, 2, 2),
            add(2, 2, 1, 2),
            add(2, 1, 2, 2),
        ],
        answers: &[
            admitted(0, 0),
            Err(CallRefusal::SourceFull),
            Err(CallRefusal::DestinationFull),
            admitted(0, 0),
        ],
        orders: &[order(Kind::Light, 0, 1, 2, 2)],
        walk: &[],
    };
    on_star(&rt, rt.alloc(), &[2, 2, 2], 1, 3, &case)
}

#[test]
fn questions_come_in_their_order(rt: HostRuntime) -> Result<(), Fail> {
    let case = Case {
        calls: &[
            add(0, 9, 9, 0),
            add(1, 9, 9, 0),
            add(1, 0, 0, 0),
            add(1, 0, 1, 0),
            add(1, 1, 0, 0),
            add(2, 0, 1, 0),
            add(2, 2, 1, 0),
            Call::Release { number: 0 },
            Call::Release { number: 7 },
            Call::Where { number: 7 },
            Call::Release { number: 1 },
            Call::Where { number: 1 },
        ],
        answers: &[
            Err(CallRefusal::NoNumber),
            Err(CallRefusal::NoSite),
            Err(CallRefusal::SameSite),
            admitted(0, 0),
            Err(CallRefusal::NumberTaken),
            Err(CallRefusal::NoTransmitter),
            Err(CallRefusal::NoReceiver),
            Err(CallRefusal::NoNumber),
            Err(CallRefusal::NotStanding),
            Err(CallRefusal::NotStanding),
            Ok(Answer::Released { wavelength: 0 }),
            Err(CallRefusal::NotStanding),
        ],
        orders: &[],
        walk: &[],
    };
    on_star(&rt, rt.alloc(), &[1, 1, 1], 2, 3, &case)
}

#[test]
fn room_is_asked_in_places(rt: HostRuntime) {
    let mut controller = on_hub(Star::new(&[1, 1, 1]), 2, 3);
    let mut few = [Order::default(); 4];
    let mut five = [Order::default(); 5];
    let mut three = [0u16; 3];
    let mut walk = [0u16; 4];
    let mut short = Sheet::new(&mut few);
    let mut orders = Sheet::new(&mut five);
    assert_eq!(rt;
        controller.admit(asked(1, 0, 1), 2, &mut short, &mut three),
        Err(CallRefusal::OrderRoom)
    );
    assert_eq!(rt;
        controller.admit(asked(1, 0, 1), 2, &mut orders, &mut three),
        Err(CallRefusal::WalkRoom)
    );
    assert_eq!(rt;
        controller.admit(asked(1, 0, 1), 2, &mut orders, &mut walk),
        Ok((0, 0))
    );
    let mut none: [Order; 0] = [];
    assert_eq!(rt;
        controller.release(1, &mut Sheet::new(&mut none)),
        Err(CallRefusal::OrderRoom)
    );
    let mut no_rows: [Session; 0] = [];
    assert_eq!(rt;
        controller.list(&mut Sheet::new(&mut no_rows)),
        Err(CallRefusal::RowRoom)
    );
}

#[test]
fn parts_that_do_not_fit_refuse_first(rt: HostRuntime) {
    let mut none: [Session; 0] = [];
    let unfit = Controller::new(Star::new(&[1, 1, 1]), MirrorHub::new(2, 4));
    assert_eq!(rt;
        unfit.list(&mut Sheet::new(&mut none)),
        Err(CallRefusal::Unfit)
    );
    let mut hub = MirrorHub::new(2, 3);
    let path = Lightpath {
        wavelength: 1,
        source: 0,
        destination: 2,
    };
    assert_eq!(rt; hub.light(path), Ok(()));
    let lit = Controller::new(Star::new(&[1, 1, 1]), hub);
    assert_eq!(rt;
        lit.list(&mut Sheet::new(&mut none)),
        Err(CallRefusal::LitAtMaking)
    );
}

#[test]
fn rows_come_by_wavelength_then_group(rt: HostRuntime) {
    let mut controller = on_hub(Star::new(&[2, 2, 2]), 2, 3);
    let mut places = [Order::default(); 5];
    let mut orders = Sheet::new(&mut places);
    let mut walk = [0u16; 4];
    assert_eq!(rt;
        controller.admit(asked(9, 2, 1), 2, &mut orders, &mut walk),
        Ok((0, 0))
    );
    assert_eq!(rt;
        controller.admit(asked(8, 2, 0), 2, &mut orders, &mut walk),
        Ok((1, 0))
    );
    assert_eq!(rt;
        controller.admit(asked(7, 1, 2), 2, &mut orders, &mut walk),
        Ok((0, 0))
    );
    let mut row_places = [Session::default(); 4];
    let mut rows = Sheet::new(&mut row_places);
    assert_eq!(rt; controller.list(&mut rows), Ok(3));
    assert!(rt; rows.as_slice().iter().map(|s| s.number).eq([7, 9, 8]));
    assert_eq!(rt; rows.read(2).map(|s| s.number), Ok(8));
    assert_eq!(rt; rows.read(3), Err(SheetRefusal::Unwritten));
}

#[test]
fn orders_stay_where_they_were_written(rt: HostRuntime) {
    let mut places = [Order::default(); 2];
    let first = order(Kind::Light, 1, 2, 3, 4);
    write_first(&mut places, first);
    assert_eq!(rt; places, [first, Order::default()]);
}
