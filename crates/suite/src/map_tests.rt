//! The picture of a small tree: its cells, written by hand from what a cell is.
use crate::boards_tests::BRANCH;
use crate::cases::{case, finding_of};
use case_core::{Case, Target};
use fixtures::targets::{cube, inner};
use mark_board::Boards;
use std::alloc::Global;
use std::process::Abort;
use tree_map::map_of;

/// Parts of the picture of the tree of `BRANCH`.
const PARTS: &[&str] = &[
    "25.0 % open, w 288230376151711744 of 1152921504606846976<",
    r##"<rect class="r n" x="0" y="64" width="1024" height="22"><title>n 1 0 refuted w 0</title>"##,
    r##"<rect class="c" x="512" y="88" width="512" height="22"><title>a 2 open</title></rect>"##,
    r##"<rect class="r" x="1024" y="88" width="512" height="22"><title>a 3 refuted</title>"##,
    r##"<rect class="o" x="1536" y="88" width="512" height="22"><title>a 4 open</title></rect>"##,
];

/// Posts the findings of these targets.
fn post_all(rt: &impl Abort, alloc: Global, boards: &mut Boards, targets: &[Target]) {
    for target in targets {
        let finding = finding_of(rt, alloc, boards.case(), *target).expect(rt, "no section");
        let _ = boards.post(finding);
    }
}

/// The picture of a case's boards after the findings of these targets.
fn map_after(rt: &impl Abort, alloc: Global, case: &Case, targets: &[Target]) -> Vec<u8> {
    let mut boards = Boards::new(alloc, case, 1).expect(rt, "memory");
    post_all(rt, alloc, &mut boards, targets);
    map_of(alloc, &boards).expect(rt, "memory")
}

/// Ends the test where a picture lacks one of the parts.
fn need_parts(rt: &impl Abort, picture: &[u8]) {
    let picture = std::str::from_utf8(picture).expect(rt, "no text");
    for part in PARTS {
        assert!(rt; picture.contains(*part), "{part:?}");
    }
}

/// Ends the test where the picture of a case lacks one, after the findings of a node and a cube.
fn need_picture(rt: &impl Abort, alloc: Global, case: &Case) {
    let picture = map_after(rt, alloc, case, &[inner(1), cube(3)]);
    need_parts(rt, &picture);
}

// An inner node that is refuted by its own proof covers its leaves, which have no finding.
#[test]
fn covered_leaves(rt: HostRuntime) {
    let case = case(&rt, rt.alloc(), BRANCH);
    need_picture(&rt, rt.alloc(), &case);
}
