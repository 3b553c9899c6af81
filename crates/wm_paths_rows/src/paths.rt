// Worst paths, and their texts.
use crate::graphs::{Drawing, empty, facts_of, graph_of, specification};
use std::alloc::Global;
use std::test::Fail;
use wm_cost::frame_bound;
use wm_digits::push_number;
use wm_findings::Findings;
use wm_flow::{Facts, Graph};
use wm_ops::{Counted, List, Op};
use wm_path::{Choice, worst_path};
use wm_weights::{Weights, all_ones, read_weights};
use wm_worst_text::worst_text;

const ADD: Option<Counted> = Some(Counted::Operator(Op::Add));

const SUB: Option<Counted> = Some(Counted::Operator(Op::Sub));

const MULT: Option<Counted> = Some(Counted::Operator(Op::Mult));

/// A graph, the edges that no run takes by frame function, and what is told.
#[derive(Clone, Copy)]
struct Row<'r> {
    drawing: Drawing<'r>,
    /// None where each word weighs 1.
    weights: Option<&'r [u8]>,
    dead: &'r [&'r [usize]],
    /// The path of each function, each before a semicolon; none where there is none.
    paths: &'r str,
    text: &'r str,
}

fn push_choice(text: &mut Vec<u8>, choice: &Choice) -> Result<(), Fail> {
    for number in choice.edges.items() {
        text.extend_from_slice(b" ")?;
        push_number(text, u64::from(*number))?;
    }
    for body in choice.bodies.as_slice() {
        text.extend_from_slice(b" (")?;
        push_number(text, u64::from(body.head))?;
        text.extend_from_slice(b" x ")?;
        push_number(text, body.turns)?;
        text.extend_from_slice(b":")?;
        push_choice(text, &body.choice)?;
        text.extend_from_slice(b")")?;
    }
    Ok(())
}

/// The paths, each in a line: its edges, and behind them in parentheses what is gone in the turns of its loops.
fn shown(alloc: Global, choices: &[Option<Choice>]) -> Result<Vec<u8>, Fail> {
    let mut text = Vec::new(alloc);
    for choice in choices {
        match choice {
            None => text.extend_from_slice(b" none")?,
            Some(choice) => push_choice(&mut text, choice)?,
        }
        text.extend_from_slice(b";")?;
    }
    Ok(text)
}

/// The worst path of each frame function, and its bound among the findings.
fn chosen(
    alloc: Global,
    row: &Row<'_>,
    graph: &Graph,
    weights: &Weights,
    found: &mut Findings,
) -> Result<Vec<Option<Choice>>, Fail> {
    let mut choices = Vec::new(alloc);
    for dead in row.dead {
        let facts = facts_of(alloc, row.drawing, dead)?;
        choices.push(worst_path(alloc, graph, weights, &facts)?)?;
        let Facts { turns, live, stops } = facts;
        found.bounds.push(frame_bound(
            alloc,
            graph,
            weights,
            turns.items(),
            live.items(),
            stops.items(),
        )?)?;
    }
    Ok(choices)
}

/// The paths of a row, and the text.
fn told(alloc: Global, row: &Row<'_>) -> Result<(Vec<u8>, Vec<u8>), Fail> {
    let graph = graph_of(alloc, row.drawing)?;
    let weights = match row.weights {
        None => all_ones(),
        Some(bytes) => match read_weights(alloc, bytes) {
            Ok(weights) => weights,
            Err(_fault) => all_ones(),
        },
    };
    let mut found = Findings {
        sites: List::new(alloc),
        loops: List::new(alloc),
        states: List::new(alloc),
        bounds: List::new(alloc),
    };
    let choices = chosen(alloc, row, &graph, &weights, &mut found)?;
    let names: [&[u8]; 2] = [b"low", b"high"];
    let spec = specification(alloc, &names[..row.dead.len().min(2)])?;
    let text = worst_text(
        alloc,
        &empty(alloc),
        &graph,
        &weights,
        &spec,
        &found,
        &choices,
    )?;
    Ok((shown(alloc, &choices)?, text))
}

fn text(bytes: &[u8]) -> &str {
    std::str::from_utf8(bytes).unwrap_or("?")
}

/// A condition that counts, and two branches of which one counts.
const BRANCHES: Drawing<'static> = Drawing {
    nodes: 7,
    edges: &[
        (0, 1, None),
        (1, 2, SUB),
        (2, 3, None),
        (2, 5, None),
        (3, 4, ADD),
        (4, 6, None),
        (5, 6, None),
        (6, 1, None),
    ],
    heads: &[(1, 0, 7, None)],
    stops: &[],
};

/// Two branches between one pair of nodes, of which the first goes through a node between.
const DETOUR: Drawing<'static> = Drawing {
    nodes: 5,
    edges: &[
        (0, 1, None),
        (1, 2, None),
        (2, 3, SUB),
        (2, 4, ADD),
        (3, 4, MULT),
        (4, 1, None),
    ],
    heads: &[(1, 0, 5, None)],
    stops: &[],
};

/// A loop of 40 turns that counts once in each.
const LOOP: Drawing<'static> = Drawing {
    nodes: 6,
    edges: &[
        (0, 1, None),
        (1, 2, None),
        (2, 3, None),
        (2, 5, None),
        (3, 4, MULT),
        (4, 2, None),
        (5, 1, None),
    ],
    heads: &[(1, 0, 6, None), (2, 1, 5, Some((0, Some(40))))],
    stops: &[],
};

/// The same loop with as many turns as a bound may have.
const LONG_LOOP: Drawing<'static> = Drawing {
    nodes: 6,
    edges: &[
        (0, 1, None),
        (1, 2, None),
        (2, 3, None),
        (2, 5, None),
        (3, 4, MULT),
        (4, 2, None),
        (5, 1, None),
    ],
    heads: &[
        (1, 0, 6, None),
        (2, 1, 5, Some((0, Some(1_000_000_000_000_000)))),
    ],
    stops: &[],
};

/// The same loop with one turn more.
const LONGER_LOOP: Drawing<'static> = Drawing {
    nodes: 6,
    edges: &[
        (0, 1, None),
        (1, 2, None),
        (2, 3, None),
        (2, 5, None),
        (3, 4, MULT),
        (4, 2, None),
        (5, 1, None),
    ],
    heads: &[
        (1, 0, 6, None),
        (2, 1, 5, Some((0, Some(1_000_000_000_000_001)))),
    ],
    stops: &[],
};

/// A loop without a number of turns behind one of two branches.
const ENDLESS: Drawing<'static> = Drawing {
    nodes: 5,
    edges: &[
        (0, 1, None),
        (1, 2, None),
        (1, 4, ADD),
        (2, 3, MULT),
        (2, 4, None),
        (3, 2, None),
        (4, 1, None),
    ],
    heads: &[(1, 0, 6, None), (2, 1, 5, Some((0, None)))],
    stops: &[],
};

/// A loop of 3 turns, each of which counts once and then goes through a loop of 4 turns that counts twice.
const NESTED: Drawing<'static> = Drawing {
    nodes: 10,
    edges: &[
        (0, 1, None),
        (1, 2, None),
        (2, 3, None),
        (2, 9, None),
        (3, 4, ADD),
        (4, 5, None),
        (4, 8, None),
        (5, 6, MULT),
        (6, 7, SUB),
        (7, 4, None),
        (8, 2, None),
        (9, 1, None),
    ],
    heads: &[
        (1, 0, 11, None),
        (2, 1, 10, Some((0, Some(3)))),
        (4, 4, 9, Some((1, Some(4)))),
    ],
    stops: &[],
};

/// Two loops one behind the other.
const SEQUENCE: Drawing<'static> = Drawing {
    nodes: 7,
    edges: &[
        (0, 1, None),
        (1, 2, None),
        (2, 3, ADD),
        (2, 4, None),
        (3, 2, None),
        (4, 5, SUB),
        (4, 6, None),
        (5, 4, None),
        (6, 1, None),
    ],
    heads: &[
        (1, 0, 8, None),
        (2, 1, 4, Some((0, Some(5)))),
        (4, 3, 7, Some((1, Some(7)))),
    ],
    stops: &[],
};

/// A node at which a run may stop, before an edge that counts nothing.
const STOPPING: Drawing<'static> = Drawing {
    nodes: 4,
    edges: &[(0, 1, None), (1, 2, ADD), (2, 3, None), (3, 1, None)],
    heads: &[(1, 0, 3, None)],
    stops: &[2],
};

/// A node at which a run may stop, before an edge that counts.
const COUNTING_ON: Drawing<'static> = Drawing {
    nodes: 4,
    edges: &[(0, 1, None), (1, 2, ADD), (2, 3, SUB), (3, 1, None)],
    heads: &[(1, 0, 3, None)],
    stops: &[2],
};

/// The choice between two functions.
const CHOICE: Drawing<'static> = Drawing {
    nodes: 8,
    edges: &[
        (0, 1, None),
        (1, 2, None),
        (2, 3, None),
        (2, 5, None),
        (3, 4, ADD),
        (4, 7, None),
        (5, 6, SUB),
        (6, 7, MULT),
        (7, 1, None),
    ],
    heads: &[(1, 0, 8, None)],
    stops: &[],
};

#[test]
fn worst_paths(rt: HostRuntime) -> Result<(), Fail> {
    let alloc = rt.alloc();
    let rows = [
        Row {
            drawing: BRANCHES,
            weights: None,
            dead: &[&[]],
            paths: " 1 2 4 5;",
            text: "wmops worst 1\nbound 2\nword add 1 1\nword sub 1 1\n",
        },
        Row {
            drawing: BRANCHES,
            weights: None,
            dead: &[&[2]],
            paths: " 1 3 6;",
            text: "wmops worst 1\nbound 1\nword sub 1 1\n",
        },
        Row {
            drawing: BRANCHES,
            weights: None,
            dead: &[&[1]],
            paths: ";",
            text: "wmops worst 1\nbound 0\n",
        },
        Row {
            drawing: DETOUR,
            weights: Some(b"add = 2\nsub = 1\nmult = 1\n"),
            dead: &[&[]],
            paths: " 1 2 4;",
            text: "wmops worst 1\nbound 2\nword sub 1 1\nword mult 1 1\n",
        },
        Row {
            drawing: DETOUR,
            weights: Some(b"add = 3\nsub = 1\nmult = 1\n"),
            dead: &[&[]],
            paths: " 1 3;",
            text: "wmops worst 1\nbound 3\nword add 1 3\n",
        },
        Row {
            drawing: DETOUR,
            weights: Some(b"add = 0\nsub = 0\nmult = 0\n"),
            dead: &[&[]],
            paths: " 1 2 4;",
            text: "wmops worst 1\nbound 0\n",
        },
        Row {
            drawing: LOOP,
            weights: None,
            dead: &[&[]],
            paths: " 1 3 (1 x 40: 2 4);",
            text: "wmops worst 1\nbound 40\nword mult 40 1\nloop 1 instance 1 turns 40\n",
        },
        Row {
            drawing: LOOP,
            weights: None,
            dead: &[&[4]],
            paths: " 1 3;",
            text: "wmops worst 1\nbound 0\n",
        },
        Row {
            drawing: LONG_LOOP,
            weights: None,
            dead: &[&[]],
            paths: " 1 3 (1 x 1000000000000000: 2 4);",
            text: "wmops worst 1\nbound 1000000000000000\nword mult 1000000000000000 1\nloop 1 instance 1 turns 1000000000000000\n",
        },
        Row {
            drawing: LONGER_LOOP,
            weights: None,
            dead: &[&[]],
            paths: " none;",
            text: "wmops worst 1\nbound large\n",
        },
        Row {
            drawing: ENDLESS,
            weights: None,
            dead: &[&[]],
            paths: " none;",
            text: "wmops worst 1\nbound none loop 1\n",
        },
        Row {
            drawing: ENDLESS,
            weights: None,
            dead: &[&[1]],
            paths: " 2;",
            text: "wmops worst 1\nbound 1\nword add 1 1\n",
        },
        Row {
            drawing: NESTED,
            weights: None,
            dead: &[&[]],
            paths: " 1 3 (1 x 3: 2 4 6 (2 x 4: 5 7 8));",
            text: "wmops worst 1\nbound 27\nword add 3 1\nword sub 12 1\nword mult 12 1\nloop 1 instance 1 turns 3\nloop 2 instance 1 turns 4\n",
        },
        Row {
            drawing: SEQUENCE,
            weights: None,
            dead: &[&[]],
            paths: " 1 3 6 (1 x 5: 2) (2 x 7: 5);",
            text: "wmops worst 1\nbound 12\nword add 5 1\nword sub 7 1\nloop 1 instance 1 turns 5\nloop 2 instance 1 turns 7\n",
        },
        Row {
            drawing: STOPPING,
            weights: None,
            dead: &[&[]],
            paths: " 1;",
            text: "wmops worst 1\nbound 1\nword add 1 1\n",
        },
        Row {
            drawing: COUNTING_ON,
            weights: None,
            dead: &[&[]],
            paths: " 1 2;",
            text: "wmops worst 1\nbound 2\nword add 1 1\nword sub 1 1\n",
        },
        Row {
            drawing: CHOICE,
            weights: None,
            dead: &[&[3, 6, 7], &[2, 4, 5]],
            paths: " 1 2 4 5; 1 3 6 7;",
            text: "wmops worst 1\nbound 1 in low\nword add 1 1\nbound 2 in high\nword sub 1 1\nword mult 1 1\n",
        },
    ];
    for row in &rows {
        let (paths, lines) = told(alloc, row)?;
        assert_eq!(rt; text(&paths), row.paths);
        assert_eq!(rt; text(&lines), row.text);
    }
    Ok(())
}
