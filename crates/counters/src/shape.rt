// The tree's shape, by the number of blocks, and the ones that its root tells.
ghost use Rattle.std.specs.Prelude.{◌≡◌, ◌+◌, ◌*◌, ◌^◌, ◌<◌, ◌≤◌, length};
ghost use Rattle.counters.specs.Tree.{blocks_of, height, counter_count};
ghost use Rattle.counters.specs.Working.{TreeOver, nodes_over, most_pair, ones_from, RoomAbove, Above, Up, OnesHeld};

use words::BLOCK_BITS;

// The children of a node.
pub const CHILDREN: usize = 64;
// The counters of a node.
pub const NODE_COUNTERS: usize = 72;
// The place of a node's last summary.
const LAST_SUMMARY: usize = 7;
// The place of its last key.
const LAST_KEY: usize = 71;

// The height over so many blocks.
pub fn height_of(blocks: usize) -> usize
    ensures { result ≡ height blocks }
{
    if blocks <= CHILDREN {
        return 1;
    }
    if blocks <= CHILDREN * CHILDREN {
        return 2;
    }
    3
}

// The nodes over so many children: a node has 64.
pub fn parents(count: usize) -> usize
    requires { count < 2 ^ 63 }
    ensures { result ≡ nodes_over count }
{
    (count + (CHILDREN - 1)) / CHILDREN
}

// A level: the number of its nodes, and where its counters start. The blocks are level 0, which starts where the counters end.
#[derive(Clone, Copy, Debug, PartialEq, Eq, Hash)]
pub struct Level {
    pub count: usize,
    pub start: usize,
}

// The level above.
pub fn above(level: Level) -> Level
    requires { RoomAbove level }
    ensures { Above level result }
{
    let count = parents(level.count);
    Level {
        count,
        start: level.start - NODE_COUNTERS * count,
    }
}

// Where a climb from a block to the root stands: a level, and the node on the way; at level 0 the block.
#[derive(Clone, Copy, Debug, PartialEq, Eq, Hash)]
pub struct Climb {
    pub level: Level,
    pub node: usize,
}

// One level of a climb: where it then stands, where the counters of that node start, and the slot of the child that it came from.
#[derive(Clone, Copy, Debug, PartialEq, Eq, Hash)]
pub struct Rise {
    pub climb: Climb,
    pub at: usize,
    pub slot: usize,
}

// Before the first level: at a block, of so many, where the counters end at `end`.
pub fn from_block(blocks: usize, end: usize, block: usize) -> Climb
    ensures { (result.level.count ≡ blocks) × (result.level.start ≡ end) × (result.node ≡ block) }
{
    Climb {
        level: Level {
            count: blocks,
            start: end,
        },
        node: block,
    }
}

// One level up.
pub fn up(climb: Climb) -> Rise
    requires { RoomAbove climb.level × (climb.node < climb.level.count) }
    ensures { Up climb result }
{
    let level = above(climb.level);
    let node = climb.node / CHILDREN;
    Rise {
        climb: Climb { level, node },
        at: level.start + NODE_COUNTERS * node,
        slot: climb.node % CHILDREN,
    }
}

// The number of counters of a capacity: the node total times 72.
pub fn counter_count(capacity: usize) -> usize
    ensures { result ≡ counter_count (blocks_of capacity) }
{
    let blocks = capacity / BLOCK_BITS;
    let levels = height_of(blocks);
    let mut count = blocks;
    let mut sum: usize = 0;
    for t in 0..levels {
        count = parents(count);
        sum += count;
    }
    NODE_COUNTERS * sum
}

// A counter as a position or a count.
pub fn wide(x: u32) -> usize
    ensures { (result ≡ x) × (result < 2 ^ 32) }
{
    x as usize
}

// The ones of the node whose counters start at `at`: its last summary and its last key.
pub fn node_ones(counters: &[u32], at: usize) -> usize
    requires { at + 72 ≤ length counters.now }
    ensures { (result ≡ ones_from counters.now at) × (result ≤ most_pair) }
{
    wide(counters[at + LAST_SUMMARY]) + wide(counters[at + LAST_KEY])
}

// The ones that a record holds, by its root.
pub fn ones_held(counters: &[u32], blocks: usize) -> usize
    requires { TreeOver blocks counters.now }
    ensures { (result ≤ most_pair) × OnesHeld blocks counters.now result }
{
    node_ones(counters, 0)
}

// So many blocks of words, and the counters over them.
#[derive(Clone, Copy)]
pub struct Tree<'a> {
    pub blocks: usize,
    pub words: &'a [u64],
    pub counters: &'a [u32],
    ghost covered: { length words.now ≡ 8 * blocks },
    ghost whole: { TreeOver blocks counters.now },
}
