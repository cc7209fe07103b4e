//! Lists of cubes: their clashes, and what is asked of their trees.
ghost use Rattle.std.specs.Prelude.{◌≡◌, ◌≤◌, true, length, map, IfOk};
ghost use Rattle.std.specs.List.{AllByRecursion};
ghost use Rattle.cnf_text.specs.Icnf.{literal_count};
ghost use Rattle.cnf_text.specs.Literal.{literal_of};
ghost use Rattle.split_tree.specs.Clash.{cube_lists as all_of};
ghost use Rattle.split_tree.specs.SplitTree.{IsTreeOf, numbered};

use crate::literals::{are_lits, cubes, lits};
use cnf_text::literal::Lit;
use fixtures::bundles::{HALF, QUARTER, WHOLE};
use split_tree::{Leaf, NodeId, Target, Tree, TreeFault, build};
use std::alloc::Global;
use std::process::Abort;

/// Cubes in the order of a list, and the clash that is named of them.
type Clash = (&'static [&'static [i32]], TreeFault);

const CLASHES: &[Clash] = &[
    (
        &[&[1], &[-1, 2], &[-1, 3], &[1, 4]],
        TreeFault::NotATree {
            first: 2,
            second: 3,
        },
    ),
    (
        &[&[1], &[-1, 2], &[1, 4], &[-1, 3]],
        TreeFault::Overlap {
            first: 1,
            second: 3,
        },
    ),
];

/// Whether the cubes are within the limits that `build` asks for.
fn are_within(cubes: &[Vec<Lit>]) -> bool
    ensures count { result ≡ true → length cubes.now ≤ 1048576 }
    ensures literals { result ≡ true → literal_count (all_of cubes.now) ≤ 16777216 }
    ensures each { result ≡ true
        → AllByRecursion (λ cube. length cube ≤ 4096) (all_of cubes.now) }
{
    if cubes.len() > 1_048_576 {
        return false;
    }
    let mut literals = 0;
    for cube in cubes {
        if cube.len() > 4_096 {
            return false;
        }
        literals += cube.len();
    }
    literals <= 16_777_216
}

/// The tree of cubes, or their fault.
fn built(rt: &impl Abort, alloc: Global, cubes: &[Vec<Lit>]) -> Result<Tree, TreeFault>
    ensures { IfOk result (λ tree. IsTreeOf tree (numbered 1 (all_of cubes.now))) }
{
    assert!(rt; are_within(cubes));
    build(alloc, cubes)
}

/// The tree of the cubes of these numbers.
fn tree(rt: &impl Abort, alloc: Global, lists: &[&[i32]]) -> Tree
    ensures { IsTreeOf result
        (numbered 1 (map (λ numbers. map literal_of numbers.now) lists.now)) }
{
    built(rt, alloc, &cubes(rt, alloc, lists)).expect(rt, "no tree")
}

/// Ends the test where the cubes don't clash so.
fn need_clash(rt: &impl Abort, alloc: Global, cubes: &[Vec<Lit>], wanted: &TreeFault) {
    let built = built(rt, alloc, cubes);
    assert!(rt; matches!(built, Err(fault) if fault == *wanted), "{wanted}");
}

#[test]
fn clashes_are_named(rt: HostRuntime) {
    for (lists, fault) in CLASHES {
        need_clash(&rt, rt.alloc(), &cubes(&rt, rt.alloc(), lists), fault);
    }
}

fn prints(alloc: Global, fault: &TreeFault, text: &str) -> bool {
    match format!(in alloc; "{fault}") {
        Ok(printed) => printed.as_str() == text,
        Err(_) => false,
    }
}

#[test]
fn faults_are_printed(rt: HostRuntime) {
    for (fault, text) in [
        (TreeFault::Repeats { cube: 3 }, "F7 cube 3 repeats"),
        (
            TreeFault::NotATree {
                first: 1,
                second: 2,
            },
            "F8 cubes 1 and 2 are not of one tree",
        ),
        (
            TreeFault::Overlap {
                first: 1,
                second: 2,
            },
            "F9 cubes 1 and 2 overlap",
        ),
        (TreeFault::Memory, "F6 memory"),
    ] {
        assert!(rt; prints(rt.alloc(), &fault, text), "{text}");
    }
}

/// Whether a leaf of the tree has the path of these numbers.
fn has_path(rt: &impl Abort, alloc: Global, tree: &Tree, leaf: Leaf, numbers: &[i32]) -> bool {
    assert!(rt; tree.has_leaf(leaf));
    let path = tree.path_of(alloc, Target::Leaf(leaf)).expect(rt, "memory");
    are_lits(&path, numbers)
}

/// Whether a leaf of the tree has this weight.
fn weighs(rt: &impl Abort, tree: &Tree, leaf: Leaf, weight: u64) -> bool {
    assert!(rt; tree.has_leaf(leaf));
    let node = tree.node_of_leaf(leaf);
    tree.weight_of(leaf) == weight
        && tree.weight_under(node) == weight
        && tree.leaf_at(node) == Some(leaf)
}

/// Two cubes: the branch `1`, `-2` is missing.
const TWO: &[&[i32]] = &[&[1, 2], &[-1]];

/// The leaves of their tree, with their paths and weights.
const LEAVES: &[(Leaf, &[i32], u64)] = &[
    (Leaf::Cube(1), &[1, 2], QUARTER),
    (Leaf::Missing(1), &[1, -2], QUARTER),
    (Leaf::Cube(2), &[-1], HALF),
];

/// Leaves that it hasn't.
const NO_LEAVES: [Leaf; 4] = [
    Leaf::Cube(0),
    Leaf::Cube(3),
    Leaf::Missing(0),
    Leaf::Missing(2),
];

/// Ends the test where one of these leaves has another path or weight.
fn need_leaves(rt: &impl Abort, alloc: Global, tree: &Tree) {
    for (leaf, path, weight) in LEAVES {
        assert!(rt; has_path(rt, alloc, tree, *leaf, path), "{leaf:?}");
        assert!(rt; weighs(rt, tree, *leaf, *weight), "{leaf:?}");
    }
}

/// Ends the test where the tree has one of the leaves that it hasn't.
fn need_no_leaves(rt: &impl Abort, tree: &Tree) {
    for leaf in NO_LEAVES {
        assert!(rt; !tree.has_leaf(leaf), "{leaf:?}");
    }
}

/// Ends the test where it has other counts.
fn need_counts(rt: &impl Abort, tree: &Tree) {
    assert!(rt; tree.leaf_count() == 3 && tree.cube_count() == 2 && tree.missing_count() == 1);
    assert!(rt; tree.total() == WHOLE);
}

#[test]
fn leaves_of_a_tree(rt: HostRuntime) {
    let tree = tree(&rt, rt.alloc(), TWO);
    need_leaves(&rt, rt.alloc(), &tree);
    need_counts(&rt, &tree);
    need_no_leaves(&rt, &tree);
}

/// Whether the node with the path of these numbers is this one; `None` where it is no inner one.
fn is_node(
    rt: &impl Abort,
    alloc: Global,
    tree: &Tree,
    numbers: &[i32],
    node: Option<NodeId>,
) -> bool {
    tree.node_of(&lits(rt, alloc, numbers)) == node
}

/// Ends the test where the tree's nodes have other numbers.
fn need_numbers(rt: &impl Abort, alloc: Global, tree: &Tree) {
    let (one, other) = (NodeId::new(1), NodeId::new(4));
    assert!(rt; tree.size() == 5 && tree.branches(tree.root()) == Some((one, other)));
    assert!(rt; tree.has_leaf(Leaf::Missing(1)));
    assert!(rt; tree.parent(tree.node_of_leaf(Leaf::Missing(1))) == Some(one));
    assert!(rt; is_node(rt, alloc, tree, &[1], Some(one)));
    assert!(rt; is_node(rt, alloc, tree, &[-1], None));
}

/// Ends the test where cut 1 has other parts, or other nodes above them.
fn need_parts(rt: &impl Abort, alloc: Global, tree: &Tree) {
    let parts = tree.parts(alloc, 1).expect(rt, "memory");
    assert!(rt; parts.as_slice() == [NodeId::new(1), NodeId::new(4)].as_slice());
    let above = tree.top(alloc, 1).expect(rt, "memory");
    assert!(rt; above.nodes.len() == 3);
}

// Nodes have their numbers in the order of the tree, the branch of the literal before the other.
#[test]
fn nodes_of_a_tree(rt: HostRuntime) {
    let tree = tree(&rt, rt.alloc(), TWO);
    need_numbers(&rt, rt.alloc(), &tree);
    need_parts(&rt, rt.alloc(), &tree);
}

/// The literals of the greatest number.
fn push_longest(rt: &impl Abort, cube: &mut Vec<Lit>) {
    for variable in 1..=4_096 {
        let lit = Lit::new(variable).expect(rt, "no literal");
        cube.push(lit).expect(rt, "memory");
    }
}

/// Ends the test where the tree of one cube of the greatest length has another total, or its last
/// missing leaf another path.
fn need_longest(rt: &impl Abort, alloc: Global, cubes: &[Vec<Lit>]) {
    let tree = built(rt, alloc, cubes).expect(rt, "no tree");
    assert!(rt; tree.missing_count() == 4_096 && tree.total() == 1_152_921_504_606_851_012);
    assert!(rt; has_path(rt, alloc, &tree, Leaf::Missing(4_096), &[-1]));
}

// A cube of the greatest length: each of its missing leaves weighs at least 1.
#[test]
fn the_longest_cube(rt: HostRuntime) {
    let mut cube = Vec::new(rt.alloc());
    push_longest(&rt, &mut cube);
    let cubes = vec![in rt.alloc(); cube].expect(&rt, "memory");
    need_longest(&rt, rt.alloc(), &cubes);
}

#[test]
fn the_most_cubes(rt: HostRuntime) {
    let mut cubes = Vec::new(rt.alloc());
    for _ in 0..1_048_576 {
        cubes.push(Vec::new(rt.alloc())).expect(&rt, "memory");
    }
    need_clash(&rt, rt.alloc(), &cubes, &TreeFault::Repeats { cube: 2 });
}

/// The cube of 12 literals whose signs are the bits of a number.
fn signed_cube(rt: &impl Abort, alloc: Global, bits: u32) -> Vec<Lit> {
    let mut cube = Vec::new(alloc);
    let mut left = bits;
    for variable in 1..13 {
        let lit = Lit::from_parts(variable, left % 2 == 0);
        cube.push(lit).expect(rt, "memory");
        left /= 2;
    }
    cube
}

#[test]
fn a_late_clash_is_found(rt: HostRuntime) {
    let mut cubes = Vec::new(rt.alloc());
    for bits in 0..=4_096 {
        let cube = signed_cube(&rt, rt.alloc(), if bits == 4_096 { 2_048 } else { bits });
        cubes.push(cube).expect(&rt, "memory");
    }
    need_clash(&rt, rt.alloc(), &cubes, &TreeFault::Repeats { cube: 4_097 });
}
