//! Each call on a small log, on one that is not its own, and with a buffer that is too short.

use crate::about::{kt_sizes, kt_version};
use crate::answer::{KtAnswer, tell_answer};
use crate::fault::{Fault, KtFault};
use crate::judging::{kt_check, kt_judge};
use crate::merging::kt_merge;
use crate::texts::{kt_certify, kt_draw, kt_explain};
use kt_base::{InstNo, ProcNo, RowNo};
use kt_chain::CertTextFault;
use kt_draw::PictureFault;
use kt_explain::Answer;
use kt_log_text::LogFault;
use kt_merge::{MergeFault, PartFault, RowFault};
use kt_spacetime::{Rule, Unfit, Verdict, Why};
use std::rt::HostRuntime;

const LOG: &[u8] =
    b"kt,2,-,-\nsent,0,1,5\nreceived,1,0,1\nbegan,1,1,checkpoint\ntook,1,1,-\ntook,0,1,-\ndecided,1,1,commit\nclosed,0,1,-\nclosed,1,1,-\n";

// The same without the checkpoint of process 0.
const TOO_FEW: &[u8] =
    b"kt,2,-,-\nsent,0,1,5\nreceived,1,0,1\nbegan,1,1,checkpoint\ntook,1,1,-\ndecided,1,1,commit\nclosed,1,1,-\n";

const CERTIFICATES: &[u8] = b"cert,1,checkpoint,1,commit\nmember,1,1,0,-\nmember,1,0,1,1\n";

// The same with a message that was not sent.
const UNLINKED: &[u8] = b"cert,1,checkpoint,1,commit\nmember,1,1,0,-\nmember,1,0,1,2\n";

const ALONE: &[u8] = b"cert,1,checkpoint,1,commit\nmember,1,1,0,-\n";

#[test]
fn checks(rt: HostRuntime) {
    let (mut answer, mut fault) = (KtAnswer::none(), KtFault::none());
    let yes = kt_check(rt.alloc(), LOG, CERTIFICATES, &mut answer, &mut fault);
    assert!(rt; yes == 0 && answer.why == 0 && fault.what == 0);
    let no = kt_check(rt.alloc(), TOO_FEW, ALONE, &mut answer, &mut fault);
    assert!(rt; no == 1 && answer.why == 6 && answer.inst == 1 && answer.row == 5);
    let refused = kt_check(rt.alloc(), LOG, b"cert", &mut answer, &mut fault);
    assert!(rt; refused == 2 && answer.why == 0 && answer.row == 0);
    assert!(rt; fault.text == 2 && fault.what == 4 && fault.place == 1);
}

#[test]
fn judges(rt: HostRuntime) {
    let (mut answer, mut fault) = (KtAnswer::none(), KtFault::none());
    let no = kt_judge(rt.alloc(), b"received,1,0,1\n", &mut answer, &mut fault);
    assert!(rt; no == 1 && answer.why == 1 && answer.rule == 2 && answer.row == 1);
    let yes = kt_judge(rt.alloc(), LOG, &mut answer, &mut fault);
    assert!(rt; yes == 0 && answer.rule == 0 && answer.row == 0 && fault.what == 0);
}

#[test]
fn certifies(rt: HostRuntime) {
    let (mut fault, mut len, mut out) = (KtFault::none(), 0, [7; 100]);
    let short = kt_certify(rt.alloc(), LOG, &mut out[..10], &mut len, &mut fault);
    assert!(rt; short == 5 && len == CERTIFICATES.len() && out[0] == 7);
    let done = kt_certify(rt.alloc(), LOG, &mut out, &mut len, &mut fault);
    assert!(rt; done == 0 && len == CERTIFICATES.len() && out[len] == 7);
    assert!(rt; &out[..len] == CERTIFICATES);
    let unfit = kt_certify(
        rt.alloc(),
        b"received,1,0,1\n",
        &mut out,
        &mut len,
        &mut fault,
    );
    assert!(rt; unfit == 1 && len == 0 && fault.what == 9 && fault.place == 1 && fault.rule == 2);
}

#[test]
fn explains(rt: HostRuntime) {
    let (mut fault, mut len, mut out) = (KtFault::none(), 0, [0; 400]);
    let no = kt_explain(rt.alloc(), TOO_FEW, ALONE, &mut out, &mut len, &mut fault);
    assert!(rt; no == 1 && fault.what == 0);
    assert!(rt;
        out[..len].starts_with(b"no instance 1 row 5 Orphan\nlog:6: decided,1,1,commit (row 5)\n")
    );
    let no = kt_explain(rt.alloc(), LOG, UNLINKED, &mut out, &mut len, &mut fault);
    assert!(rt; no == 1 && fault.what == 0);
    assert!(rt;
        out[..len].ends_with(b"certificates:3: has member,1,0,1,2\nthe log means member,1,0,1,1\n")
    );
}

#[test]
fn draws(rt: HostRuntime) {
    let (mut fault, mut len, mut out) = (KtFault::none(), 0, [0; 10]);
    let short = kt_draw(
        rt.alloc(),
        LOG,
        CERTIFICATES,
        0,
        0,
        &mut out,
        &mut len,
        &mut fault,
    );
    assert!(rt; short == 5 && len > 1000 && fault.what == 0);
    let none = kt_draw(
        rt.alloc(),
        LOG,
        CERTIFICATES,
        9,
        0,
        &mut out,
        &mut len,
        &mut fault,
    );
    assert!(rt; none == 2 && len == 0 && fault.what == 11);
}

#[test]
fn merges(rt: HostRuntime) {
    let (mut fault, mut len, mut out) = (KtFault::none(), 0, [7; 100]);
    let parts: [&[u8]; 2] = [b"1,sent,0,1,5,m0.1\n", b"2,received,1,0,m0.1,-\n"];
    let done = kt_merge(rt.alloc(), &parts, &mut out, &mut len, &mut fault);
    assert!(rt; done == 0 && fault.what == 0 && len == 35 && out[len] == 7);
    assert!(rt; &out[..len] == b"kt,2,-,-\nsent,0,1,5\nreceived,1,0,1\n".as_slice());
    let short = kt_merge(rt.alloc(), &parts, &mut out[..9], &mut len, &mut fault);
    assert!(rt; short == 5 && len == 35);
    let early: [&[u8]; 2] = [b"3,sent,0,1,5,m0.1\n", parts[1]];
    let refused = kt_merge(rt.alloc(), &early, &mut out, &mut len, &mut fault);
    assert!(rt; refused == 2 && len == 0);
    assert!(rt; fault.text == 2 && fault.what == 16 && fault.place == 1);
    let many: [&[u8]; 65] = [b""; 65];
    let refused = kt_merge(rt.alloc(), &many, &mut out, &mut len, &mut fault);
    assert!(rt; refused == 2 && len == 0 && fault.text == 65 && fault.what == 20);
}

#[test]
fn tells_sizes(rt: HostRuntime) {
    let mut sizes = [0; 9];
    assert!(rt; kt_sizes(&mut sizes[..7]) == 8 && sizes[0] == 0);
    assert!(rt; kt_sizes(&mut sizes) == 8 && sizes == [20, 24, 8, 64, 88, 64, 16, 4432, 0]);
    assert!(rt; kt_version() == 3);
}

// Each fault of a text has the number that include/koo_toueg.h gives it.
#[test]
fn numbers_faults(rt: HostRuntime) {
    let row = RowNo::after(4);
    let faults = [
        (Fault::Log(LogFault::Read), 1),
        (Fault::Log(LogFault::TooLong), 2),
        (Fault::Log(LogFault::Version), 3),
        (Fault::Log(LogFault::Fields(row)), 4),
        (Fault::Log(LogFault::Word(row)), 5),
        (Fault::Log(LogFault::Number(row)), 6),
        (Fault::Certificates(CertTextFault::Read), 1),
        (Fault::Certificates(CertTextFault::TooLong), 2),
        (Fault::Certificates(CertTextFault::Fields(5)), 4),
        (Fault::Certificates(CertTextFault::Word(5)), 5),
        (Fault::Certificates(CertTextFault::Number(5)), 6),
        (Fault::Certificates(CertTextFault::Place(5)), 7),
        (Fault::Memory, 8),
        (Fault::Picture(PictureFault::NoRows), 11),
        (Fault::Picture(PictureFault::TooLong), 12),
    ];
    for (fault, what) in &faults {
        assert!(rt; KtFault::of(fault).what == *what);
    }
    assert!(rt; KtFault::of_unfit(Unfit::BadLog(row, Rule::Order)).what == 9);
    if let Some(inst) = InstNo::new(1) {
        assert!(rt; KtFault::of_unfit(Unfit::NoChain(inst, row, ProcNo::nth(2))).what == 10);
    }
}

#[test]
fn numbers_faults_of_parts(rt: HostRuntime) {
    let p = ProcNo::nth(2);
    let faults = [
        (MergeFault::Part(p, PartFault::Read), 1),
        (MergeFault::Part(p, PartFault::TooLong), 2),
        (MergeFault::Part(p, PartFault::Fields(5)), 4),
        (MergeFault::Part(p, PartFault::Word(5)), 5),
        (MergeFault::Part(p, PartFault::Number(5)), 6),
        (MergeFault::Part(p, PartFault::Clock(5)), 13),
        (MergeFault::Part(p, PartFault::Process(5)), 14),
        (MergeFault::Row(p, 5, RowFault::Name), 15),
        (MergeFault::Row(p, 5, RowFault::NotSent), 16),
        (MergeFault::Row(p, 5, RowFault::NotBegun), 17),
        (MergeFault::Row(p, 5, RowFault::TooManyRows), 18),
        (MergeFault::Row(p, 5, RowFault::TooManyInstances), 19),
    ];
    for (why, what) in &faults {
        let fault = KtFault::of_merge(why);
        assert!(rt; fault.what == *what && fault.text == 3);
    }
}

#[test]
fn numbers_answers(rt: HostRuntime) {
    let (mut answer, mut fault) = (KtAnswer::none(), KtFault::none());
    let reasons = [
        (Why::BadLog(Rule::Order), 1),
        (Why::Unknown, 2),
        (Why::Cause, 3),
        (Why::Members, 4),
        (Why::Chain, 5),
        (Why::Orphan, 6),
        (Why::Missing, 7),
    ];
    for (why, number) in reasons {
        let no = Verdict::No {
            inst: None,
            row: None,
            why,
        };
        let status = tell_answer(&Answer::Checked(no), &mut answer, &mut fault);
        assert!(rt; status == 1 && answer.why == number);
    }
}
