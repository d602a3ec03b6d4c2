//! Two nodes: a message with its checkpoint, what is refused, and buffers that are too short.

use crate::node::input::KtInput;
use crate::node::output::KtOutput;
use crate::node::parcel::KtParcel;
use crate::node::refusal::Refusal;
use crate::node::{kt_node_look, kt_node_new, kt_node_step, kt_row_text};
use kt_node::{ManagerFault, NodeFault};
use std::alloc::Global;
use std::rt::HostRuntime;

// A node's bytes, and what its last step put out.
#[derive(Drop)]
struct Held {
    state: [u8; 4096],
    len: usize,
    output: KtOutput,
}

// A node of two processes.
fn opened(alloc: Global, me: u32) -> Held {
    let (mut state, mut len) = ([0; 4096], 0);
    kt_node_new(alloc, me, 2, &mut state, &mut len);
    Held {
        state,
        len,
        output: KtOutput::none(),
    }
}

// A command to a process, or of one.
fn command(kind: u32, peer: u32) -> KtInput {
    KtInput {
        kind,
        peer,
        rollback: 0,
        able: 1,
        body: -7,
        parcel: KtParcel::none(),
    }
}

// What comes of a process.
fn coming(peer: u32, parcel: KtParcel) -> KtInput {
    KtInput {
        parcel,
        ..command(5, peer)
    }
}

impl Held {
    fn bytes(&self) -> &[u8] {
        &self.state[..self.len.min(4096)]
    }

    fn step(&mut self, alloc: Global, input: &KtInput) -> u32 {
        kt_node_step(
            alloc,
            &mut self.state,
            &mut self.len,
            input,
            &mut self.output,
        )
    }
}

#[test]
fn opens(rt: HostRuntime) {
    let (mut state, mut len) = ([0; 4096], 9);
    for (me, processes) in [(2, 2), (0, 65)] {
        assert!(rt; kt_node_new(rt.alloc(), me, processes, &mut state, &mut len) == 2 && len == 0);
    }
    assert!(rt; kt_node_new(rt.alloc(), 0, 2, &mut state[..8], &mut len) == 5 && len == 260);
    assert!(rt; kt_node_new(rt.alloc(), 63, 64, &mut state[..8], &mut len) == 5 && len == 260);
    assert!(rt; kt_node_new(rt.alloc(), 0, 2, &mut state, &mut len) == 0 && state[0] == 3);
}

#[test]
fn sends(rt: HostRuntime) {
    let (mut zero, mut one) = (opened(rt.alloc(), 0), opened(rt.alloc(), 1));
    assert!(rt; zero.step(rt.alloc(), &command(1, 1)) == 0);
    let told = zero.output;
    assert!(rt; told.clock == 1 && told.up == 1 && told.busy == 0 && told.fault == 0);
    assert!(rt; told.process == 0 && told.processes == 2 && told.held == 0);
    assert!(rt; told.rows[0].kind == 1 && told.rows[0].label == 1 && told.rows[0].body == -7);
    assert!(rt; told.rows[1].kind == 0 && told.acts[0].kind == 0 && told.parcels[0].kind == 0);
    let parcel = told.parcels[1];
    assert!(rt; parcel.kind == 1 && parcel.number == 1 && parcel.clock == 1 && parcel.label == 1);
    assert!(rt; parcel.from == 0 && parcel.to == 1);
    let early = KtParcel {
        number: 2,
        ..parcel
    };
    assert!(rt; one.step(rt.alloc(), &coming(0, early)) == 2);
    assert!(rt; one.output.fault == 11 && one.output.expected == 1);
    assert!(rt; one.step(rt.alloc(), &coming(0, parcel)) == 0);
    assert!(rt; one.output.clock == 2 && one.output.rows[0].kind == 2);
    let act = one.output.acts[0];
    assert!(rt; act.kind == 1 && act.from == 0 && act.body == -7);
    assert!(rt; one.step(rt.alloc(), &coming(0, parcel)) == 1 && one.output.clock == 0);
    let stale = coming(0, early);
    assert!(rt; one.step(rt.alloc(), &stale) == 2 && one.output.fault == 15);
}

#[test]
fn saves(rt: HostRuntime) {
    let (mut zero, mut one) = (opened(rt.alloc(), 0), opened(rt.alloc(), 1));
    zero.step(rt.alloc(), &command(1, 1));
    one.step(rt.alloc(), &coming(0, zero.output.parcels[1]));
    let begin = command(2, 0);
    assert!(rt; kt_node_look(rt.alloc(), one.bytes(), &begin) == 0);
    assert!(rt; one.step(rt.alloc(), &begin) == 0);
    assert!(rt; one.output.busy == 1 && one.output.acts[0].kind == 2);
    let ask = one.output.parcels[0];
    assert!(rt; ask.kind == 2 && ask.rollback == 0 && ask.initiator == 1 && ask.count == 1);
    assert!(rt; one.step(rt.alloc(), &command(1, 0)) == 2 && one.output.fault == 5);
    assert!(rt; kt_node_look(rt.alloc(), one.bytes(), &command(1, 0)) == 2);
    assert!(rt; kt_node_look(rt.alloc(), zero.bytes(), &coming(1, ask)) == 0);
    assert!(rt; zero.step(rt.alloc(), &coming(1, ask)) == 0);
    assert!(rt; kt_node_look(rt.alloc(), zero.bytes(), &command(3, 0)) == 1);
    let reply = zero.output.parcels[1];
    assert!(rt; reply.kind == 3 && reply.yes == 1);
    assert!(rt; one.step(rt.alloc(), &coming(0, reply)) == 0);
    assert!(rt; one.output.rows[0].kind == 8 && one.output.rows[0].commit == 1);
    assert!(rt; one.output.rows[1].kind == 9 && one.output.acts[0].kind == 3);
    assert!(rt; zero.step(rt.alloc(), &coming(1, one.output.parcels[0])) == 0);
    assert!(rt; zero.output.acts[0].kind == 3 && zero.output.busy == 0);
}

// A state that was kept by this version is read by the next one: these are the ends of what nodes are as bytes, with the checksum.
#[test]
fn has_its_form(rt: HostRuntime) {
    let (mut zero, mut one) = (opened(rt.alloc(), 0), opened(rt.alloc(), 1));
    zero.step(rt.alloc(), &command(1, 1));
    assert!(rt; zero.bytes().ends_with(&[78, 66, 45, 28]));
    one.step(rt.alloc(), &coming(0, zero.output.parcels[1]));
    one.step(rt.alloc(), &command(2, 0));
    assert!(rt; one.bytes().ends_with(&[183, 183, 59, 227]));
    zero.step(rt.alloc(), &coming(1, one.output.parcels[0]));
    assert!(rt; zero.bytes().ends_with(&[249, 55, 6, 59]));
    one.step(rt.alloc(), &coming(0, zero.output.parcels[1]));
    zero.step(rt.alloc(), &coming(1, one.output.parcels[0]));
    zero.step(rt.alloc(), &command(1, 1));
    one.step(rt.alloc(), &coming(0, zero.output.parcels[1]));
    zero.step(rt.alloc(), &command(3, 0));
    let roll = KtInput {
        rollback: 1,
        ..command(2, 0)
    };
    zero.step(rt.alloc(), &roll);
    assert!(rt; zero.bytes().ends_with(&[175, 158, 12, 200]));
    one.step(rt.alloc(), &coming(0, zero.output.parcels[1]));
    assert!(rt; one.bytes().ends_with(&[196, 104, 96, 89]));
}

#[test]
fn refuses(rt: HostRuntime) {
    let mut node = opened(rt.alloc(), 0);
    let before = node.len.min(4096);
    let message = KtParcel {
        kind: 1,
        from: 1,
        number: 1,
        label: 1,
        ..KtParcel::none()
    };
    let far = 1_099_511_627_777;
    let faults = [
        (command(1, 0), 4),
        (command(1, 2), 3),
        (command(1, 64), 2),
        (command(6, 1), 2),
        (command(4, 1), 7),
        (coming(1, KtParcel { from: 0, ..message }), 13),
        (coming(1, KtParcel { to: 1, ..message }), 13),
        (coming(1, KtParcel { to: 64, ..message }), 2),
        (
            coming(
                1,
                KtParcel {
                    number: u64::MAX,
                    ..message
                },
            ),
            11,
        ),
        (
            coming(
                1,
                KtParcel {
                    clock: far,
                    ..message
                },
            ),
            14,
        ),
        (
            coming(
                1,
                KtParcel {
                    label: far,
                    ..message
                },
            ),
            14,
        ),
    ];
    for (input, fault) in &faults {
        assert!(rt; node.step(rt.alloc(), input) == 2 && node.output.fault == *fault);
    }
    let mut len = before;
    let send = command(1, 1);
    let short = kt_node_step(
        rt.alloc(),
        &mut node.state[..before],
        &mut len,
        &send,
        &mut node.output,
    );
    assert!(rt; short == 5 && len == before && node.output.needed > before as u64);
    let half = before / 2;
    len = half;
    let torn = kt_node_step(
        rt.alloc(),
        &mut node.state,
        &mut len,
        &send,
        &mut node.output,
    );
    assert!(rt; torn == 2 && node.output.fault == 1 && len == half);
    assert!(rt; kt_node_look(rt.alloc(), &node.state[..half], &send) == 2);
    assert!(rt; node.step(rt.alloc(), &send) == 0 && node.output.clock == 1);
}

#[test]
fn spells(rt: HostRuntime) {
    let mut node = opened(rt.alloc(), 0);
    let (mut line, mut len) = ([7; 40], 0);
    node.step(rt.alloc(), &command(1, 1));
    let row = node.output.rows[0];
    let short = kt_row_text(rt.alloc(), &row, 1, 0, &mut line[..9], &mut len);
    assert!(rt; short == 5 && len == 19 && line[0] == 7);
    assert!(rt; kt_row_text(rt.alloc(), &row, 1, 0, &mut line, &mut len) == 0);
    assert!(rt; line.starts_with(b"1,sent,0,1,-7,m0.1\n") && len == 19 && line[19] == 7);
    let none = node.output.rows[1];
    assert!(rt; kt_row_text(rt.alloc(), &none, 1, 0, &mut line, &mut len) == 2 && len == 0);
}

// A manager's fault.
fn of_manager(fault: ManagerFault) -> Refusal {
    Refusal::Node(NodeFault::Manager(fault))
}

// Each refusal has the number that include/koo_toueg.h gives it, and the status of that.
#[test]
fn numbers_refusals(rt: HostRuntime) {
    let refusals = [
        (Refusal::State, 1),
        (Refusal::Input, 2),
        (of_manager(ManagerFault::Unknown), 3),
        (of_manager(ManagerFault::Itself), 4),
        (of_manager(ManagerFault::Waits), 5),
        (of_manager(ManagerFault::HeldFirst), 6),
        (of_manager(ManagerFault::HoldsNone), 7),
        (of_manager(ManagerFault::LabelsSpent), 8),
        (of_manager(ManagerFault::CountsSpent), 9),
        (Refusal::Node(NodeFault::ClockSpent), 10),
        (Refusal::Node(NodeFault::Gap(3)), 11),
        (of_manager(ManagerFault::Memory), 12),
        (Refusal::Memory, 12),
        (Refusal::Node(NodeFault::Astray), 13),
        (Refusal::Node(NodeFault::Leap), 14),
        (Refusal::Node(NodeFault::Stale), 15),
        (of_manager(ManagerFault::NotBegun), 16),
    ];
    let mut output = KtOutput::none();
    for (refusal, number) in &refusals {
        let status = if *number == 12 { 4 } else { 2 };
        output.tell_refusal(refusal);
        assert!(rt; output.fault == *number && refusal.status() == status);
    }
}
