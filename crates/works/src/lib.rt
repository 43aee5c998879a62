// The work of a task and the added load of a node, each stated through the other, and the tasks that a node brings in, along the links.
// The rank of links without a cycle falls with every link and ends the calls; memos let each set and each work be found once.
#![tactic(auto)]

ghost use Rattle.std.specs.Prelude.{◌≡◌, length};
ghost use Rattle.paths.specs.Rows.{NodeOf, TaskOf, Brought, graph};
ghost use Rattle.works.specs.Works.{Ready, SetMemo, WorkMemo, WorkIs, AddedIs, WorksOf, SetsOf, Scaled};

use sets::{Set, below, first, has, rest};

// What works are worked out from: for each node the tasks it has links to, and the runs of the first few tasks.
#[derive(Clone, Copy)]
pub struct Wired<'a> {
    pub succ: &'a [u64; 48],
    pub runs: &'a [u32; 32],
    pub count: usize,
    pub ghost ready: { Ready succ.now runs.now count },
}

// The tasks that node i brings in: those it has links to and, of what each of these brings in, the tasks below it. The sets of these come
// from the memo, or are found in turn. An entry of 0 is not found yet: fixed memory, and an Option beside each word would double it.
// What the memos hold is said in the clauses: a struct that lends them to be changed would have to show it again at every store.
fn brought(wired: &Wired, i: usize, brings: &mut [u64; 48]) -> u64
    requires { NodeOf i × SetMemo wired.now.succ.now wired.now.count brings.old }
    ensures { Brought wired.now.succ.now wired.now.count i result × SetMemo wired.now.succ.now wired.now.count brings.new }
{
    let links = below(wired.succ[i - 1], wired.count);
    let mut set = links;
    let mut left = links;
    // The members of a set of bits, the least first: an iterator over them would be these two calls in a type of its own.
    while 0 < left {
        let k = first(left);
        let mut through = brings[k];
        if through == 0 {
            through = brought(wired, k + 1, brings);
        }
        let low = below(through, k);
        set = set.union(low);
        left = rest(left);
    }
    brings[i - 1] = set;
    set
}

// The same from the memo; none without a link; else found.
fn set_of(wired: &Wired, i: usize, brings: &mut [u64; 48]) -> u64
    requires { NodeOf i × SetMemo wired.now.succ.now wired.now.count brings.old }
    ensures { Brought wired.now.succ.now wired.now.count i result × SetMemo wired.now.succ.now wired.now.count brings.new }
{
    let noted = brings[i - 1];
    if 0 < noted {
        return noted;
    }
    if wired.succ[i - 1] == 0 {
        return 0;
    }
    brought(wired, i, brings)
}

// W(j): the run of j and all that j adds above it; noted in the memo.
#[cycle(added_work)]
fn work(wired: &Wired, j: usize, brings: &mut [u64; 48], known: &mut [u64; 32]) -> u64
    requires { let its = wired.now in TaskOf its.count j × SetMemo its.succ.now its.count brings.old × WorkMemo its.succ.now its.runs.now its.count known.old }
    ensures { let its = wired.now in WorkIs (graph its.succ.now its.runs.now its.count) j result × SetMemo its.succ.now its.count brings.new × WorkMemo its.succ.now its.runs.now its.count known.new }
{
    let mut sum = u64::from(wired.runs[j - 1]);
    for k in j..wired.count {
        let a = added(wired, j, k + 1, brings, known);
        sum += a;
    }
    known[j - 1] = sum;
    sum
}

// added(i, j): W(j), from the memo or worked out, if i brings j in, by a link or through higher tasks; else 0.
#[cycle(added_work)]
fn added(wired: &Wired, i: usize, j: usize, brings: &mut [u64; 48], known: &mut [u64; 32]) -> u64
    requires { let its = wired.now in NodeOf i × TaskOf its.count j × SetMemo its.succ.now its.count brings.old × WorkMemo its.succ.now its.runs.now its.count known.old }
    ensures { let its = wired.now in AddedIs (graph its.succ.now its.runs.now its.count) i j result × SetMemo its.succ.now its.count brings.new × WorkMemo its.succ.now its.runs.now its.count known.new }
{
    if has(set_of(wired, i, brings), j - 1) {
        let noted = known[j - 1];
        if 0 < noted {
            return noted;
        }
        return work(wired, j, brings, known);
    }
    0
}

// The works of the tasks, and for each node the tasks it brings in.
pub fn works_of(wired: &Wired, brings: &mut [u64; 48]) -> [u64; 32]
    requires { length brings.old ≡ 48 }
    ensures { let its = wired.now in WorksOf (graph its.succ.now its.runs.now its.count) result × Scaled result × SetsOf its.succ.now its.count brings.new }
{
    let mut sets = [0u64; 48];
    let mut known = [0u64; 32];
    let mut works = [0u64; 32];
    for j in (0..wired.count).rev() {
        works[j] = work(wired, j + 1, &mut sets, &mut known);
    }
    for (i, set) in brings.iter_mut().enumerate() {
        *set = set_of(wired, i + 1, &mut sets);
    }
    works
}
