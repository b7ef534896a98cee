//! A node that is opened on disks in memory, steps and is compacted. After a growth that is refused to a disk the node is opened
//! anew, as its owner has to.

ghost use Rattle.std.specs.Prelude.{IfOk};

use crate::again::{Refusals, Unshown, done};
use crate::given;
use std::alloc::{AllocError, Global};
use sv_journal::{JournalFault, MemoryDisk};
use sv_model::{Input, Moment, Output, Setting, Site, StepFault};
use sv_node::{Node, OpenFault};
use test_engine::{Counter, Own, request};

type Shown = Result<String, Unshown>;

type Counting = Node<Counter, MemoryDisk>;

type Running = Own<Counting>;

const MOMENT: Moment = Moment {
    now: given::NOW,
    steady: given::NOW,
    secret: given::SECRET,
};

const SETTING: Setting = Setting {
    node: 0,
    nodes: 3,
    deadline: 30,
    keys: 65_536,
    forget: false,
};

/// A node on these disks; where memory is refused, on those that are handed back.
fn opened(
    alloc: Global,
    refusals: &mut Refusals,
    a: MemoryDisk,
    b: MemoryDisk,
) -> Result<Running, Unshown>
    ensures { IfOk result (λ n. ⟦<Node<Counter, MemoryDisk> as Site>⟧.site_valid n.value) }
{
    let engine = Counter {
        alloc,
        secret: given::SECRET,
    };
    let refused = match Node::open(alloc, engine, a, b, SETTING) {
        Ok(node) => return Ok(Own::new(node)),
        Err(refused) => refused,
    };
    if !matches!(refused.fault, OpenFault::Memory | OpenFault::Device) {
        return Err(Unshown::Other);
    }
    refusals.add();
    match Node::open(alloc, refused.engine, refused.a, refused.b, SETTING) {
        Ok(node) => Ok(Own::new(node)),
        Err(_) => Err(Unshown::Other),
    }
}

fn new(alloc: Global, refusals: &mut Refusals) -> Result<Running, Unshown>
    ensures { IfOk result (λ n. ⟦<Node<Counter, MemoryDisk> as Site>⟧.site_valid n.value) }
{
    opened(
        alloc,
        refusals,
        MemoryDisk::new(alloc),
        MemoryDisk::new(alloc),
    )
}

fn reopened(alloc: Global, refusals: &mut Refusals, node: Running) -> Result<Running, Unshown>
    ensures { IfOk result (λ n. ⟦<Node<Counter, MemoryDisk> as Site>⟧.site_valid n.value) }
{
    let (_, a, b) = node.into_value().stop();
    opened(alloc, refusals, a, b)
}

pub fn open(alloc: Global, refusals: &mut Refusals) -> Shown {
    let node = new(alloc, refusals)?;
    let node = reopened(alloc, refusals, node)?;
    done(format!(in alloc; "{}", node.value.journal_len()))
}

/// The digit of the one answer that was put out.
fn digit(outputs: &[Output]) -> char {
    match outputs {
        [Output::Answer { response, .. }] => match response.body.as_slice() {
            [digit] => *digit as char,
            _ => '?',
        },
        _ => '?',
    }
}

/// The session that was made first is counted once more; the digit of its count, or why not.
fn count(alloc: Global, node: &mut Counting, token: u64) -> Result<char, StepFault>
    requires { ⟦<Node<Counter, MemoryDisk> as Site>⟧.site_valid node.old }
    ensures { ⟦<Node<Counter, MemoryDisk> as Site>⟧.site_valid node.new }
{
    let request = match request(alloc, &[0, 1]) {
        Ok(request) => request,
        Err(AllocError) => return Err(StepFault::Memory),
    };
    match node.step(MOMENT, Input::Ask { token, request }) {
        Ok(outputs) => Ok(digit(&outputs)),
        Err(fault) => Err(fault),
    }
}

/// One more count, after a refusal of memory too.
fn count_again(
    alloc: Global,
    refusals: &mut Refusals,
    node: &mut Counting,
    token: u64,
) -> Result<char, Unshown>
    requires { ⟦<Node<Counter, MemoryDisk> as Site>⟧.site_valid node.old }
    ensures { ⟦<Node<Counter, MemoryDisk> as Site>⟧.site_valid node.new }
{
    match count(alloc, node, token) {
        Ok(digit) => return Ok(digit),
        Err(StepFault::Memory) => refusals.add(),
        Err(StepFault::Device) => {
            refusals.add();
            return Ok('D');
        }
        Err(_) => return Err(Unshown::Other),
    }
    match count(alloc, node, token) {
        Ok(digit) => Ok(digit),
        Err(_) => Err(Unshown::Other),
    }
}

/// A node whose disk has failed is Failed, and opened anew it counts on from before the step or from after it.
fn mended(alloc: Global, refusals: &mut Refusals, node: Running) -> Result<char, Unshown>
    requires { ⟦<Node<Counter, MemoryDisk> as Site>⟧.site_valid node.value }
{
    let mut node = node;
    if count(alloc, &mut node.value, 8) != Err(StepFault::Failed) {
        return Err(Unshown::Other);
    }
    let mut node = reopened(alloc, refusals, node)?;
    match count(alloc, &mut node.value, 9) {
        Ok('1' | '2') => Ok('1'),
        _ => Err(Unshown::Other),
    }
}

pub fn step(alloc: Global, refusals: &mut Refusals) -> Shown {
    let mut node = new(alloc, refusals)?;
    let found = match count_again(alloc, refusals, &mut node.value, 1)? {
        'D' => mended(alloc, refusals, node)?,
        digit => digit,
    };
    done(format!(in alloc; "{found}"))
}

/// The node after a compaction that was refused: with its memory, or opened anew where its disk has failed.
fn compacted_again(
    alloc: Global,
    refusals: &mut Refusals,
    node: Running,
    fault: JournalFault,
) -> Result<Running, Unshown>
    requires { ⟦<Node<Counter, MemoryDisk> as Site>⟧.site_valid node.value }
    ensures { IfOk result (λ n. ⟦<Node<Counter, MemoryDisk> as Site>⟧.site_valid n.value) }
{
    let mut node = node;
    refusals.add();
    match fault {
        JournalFault::Memory => match node.value.compact() {
            Ok(()) => Ok(node),
            Err(_) => Err(Unshown::Other),
        },
        JournalFault::Device => reopened(alloc, refusals, node),
        _ => Err(Unshown::Other),
    }
}

/// A compaction, whose refused memory changes nothing; one whose disk has failed is over with the node opened anew.
fn compacted(alloc: Global, refusals: &mut Refusals, node: Running) -> Result<Running, Unshown>
    requires { ⟦<Node<Counter, MemoryDisk> as Site>⟧.site_valid node.value }
    ensures { IfOk result (λ n. ⟦<Node<Counter, MemoryDisk> as Site>⟧.site_valid n.value) }
{
    let mut node = node;
    match node.value.compact() {
        Ok(()) => Ok(node),
        Err(fault) => compacted_again(alloc, refusals, node, fault),
    }
}

/// The session that was made first is counted once more, and has to be.
fn counted(alloc: Global, node: &mut Counting, token: u64) -> Result<char, Unshown>
    requires { ⟦<Node<Counter, MemoryDisk> as Site>⟧.site_valid node.old }
    ensures { ⟦<Node<Counter, MemoryDisk> as Site>⟧.site_valid node.new }
{
    match count(alloc, node, token) {
        Ok(digit) => Ok(digit),
        Err(_) => Err(Unshown::Memory),
    }
}

/// A node that has counted once.
fn begun(alloc: Global, refusals: &mut Refusals) -> Result<Running, Unshown>
    ensures { IfOk result (λ n. ⟦<Node<Counter, MemoryDisk> as Site>⟧.site_valid n.value) }
{
    let mut node = new(alloc, refusals)?;
    match counted(alloc, &mut node.value, 1) {
        Ok('1') => Ok(node),
        _ => Err(Unshown::Memory),
    }
}

pub fn compact(alloc: Global, refusals: &mut Refusals) -> Shown {
    let node = begun(alloc, refusals)?;
    let mut node = compacted(alloc, refusals, node)?;
    let found = counted(alloc, &mut node.value, 2)?;
    done(format!(in alloc; "{found}"))
}
