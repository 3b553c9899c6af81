// A graph as lines of text: where its nodes are, its edges, its heads.
use std::alloc::Global;
use std::fmt::Write;
use std::test::Fail;
use wm_arrays::Summary;
use wm_domain::{Form, Shape};
use wm_flow::{Action, Argument, Edge, Given, Graph, Growth, Head, Returned};
use wm_interval::Interval;

/// What is told of a node: its instance, and how many variables of the group, singles and arrays it has.
#[derive(Clone, Copy, PartialEq, Eq)]
struct Kind {
    instance: Option<u32>,
    group: usize,
    singles: usize,
    arrays: usize,
}

/// The lines of a graph: how many nodes there are; the first node of each run of nodes that are alike, with the instance and
/// `GROUP+SINGLES+ARRAYS`; the edges; the heads.
pub(crate) fn graph_text(alloc: Global, graph: &Graph) -> Result<String, Fail> {
    let mut text = String::new(alloc);
    put_nodes(&mut text, graph)?;
    for edge in graph.edges.items() {
        put_edge(&mut text, edge)?;
    }
    for head in graph.heads.items() {
        put_head(&mut text, head)?;
    }
    Ok(text)
}

fn kind_of(instance: Option<u32>, shape: &Shape) -> Kind {
    Kind {
        instance,
        group: shape.group.items().len(),
        singles: shape.singles.items().len(),
        arrays: shape.arrays.items().len(),
    }
}

fn put_kind(text: &mut String, node: usize, kind: &Kind) -> Result<(), Fail> {
    let Kind {
        instance,
        group,
        singles,
        arrays,
    } = *kind;
    write!(text, "{node} in ")?;
    put_number(text, instance)?;
    write!(text, " {group}+{singles}+{arrays}\n")?;
    Ok(())
}

fn put_nodes(text: &mut String, graph: &Graph) -> Result<(), Fail> {
    let instances = graph.node_instance.items();
    let count = instances.len();
    write!(text, "nodes {count}\n")?;
    let mut last = None;
    for (node, number) in graph.node_shape.items().iter().enumerate() {
        let instance = *instances.get(node).ok_or("no instance")?;
        let shape = graph
            .shapes
            .items()
            .get(*number as usize)
            .ok_or("no shape")?;
        let kind = kind_of(instance, shape);
        if last != Some(kind) {
            put_kind(text, node, &kind)?;
        }
        last = Some(kind);
    }
    Ok(())
}

fn put_number(text: &mut String, number: Option<u32>) -> Result<(), Fail> {
    match number {
        Some(number) => write!(text, "{number}")?,
        None => write!(text, "-")?,
    }
    Ok(())
}

fn put_head(text: &mut String, head: &Head) -> Result<(), Fail> {
    let Head {
        node,
        instance,
        loop_id,
        entry,
        back,
    } = *head;
    write!(text, "head {node} in ")?;
    put_number(text, instance)?;
    write!(text, " loop ")?;
    put_number(text, loop_id)?;
    write!(text, " entry {entry} back {back}\n")?;
    Ok(())
}

fn put_edge(text: &mut String, edge: &Edge) -> Result<(), Fail> {
    let source = edge.source;
    let target = edge.target;
    write!(text, "{source} -> {target} ")?;
    put_action(text, &edge.action)?;
    match edge.site {
        Some(site) => write!(text, " site {site}\n")?,
        None => write!(text, "\n")?,
    }
    Ok(())
}

fn put_interval(text: &mut String, interval: Interval) -> Result<(), Fail> {
    let low = interval.low;
    let high = interval.high;
    write!(text, "{low}..{high}")?;
    Ok(())
}

fn put_summary(text: &mut String, summary: &Summary) -> Result<(), Fail> {
    match *summary {
        Summary::Empty => write!(text, "empty")?,
        Summary::Range(interval) => put_interval(text, interval)?,
    }
    Ok(())
}

fn put_form(text: &mut String, form: &Form) -> Result<(), Fail> {
    for term in form.terms.items() {
        let variable = term.variable;
        if term.negative {
            write!(text, "-x{variable}")?;
        } else {
            write!(text, "+x{variable}")?;
        }
    }
    let constant = form.constant;
    if constant < 0 {
        write!(text, "{constant}")?;
    } else {
        write!(text, "+{constant}")?;
    }
    Ok(())
}

fn put_forms(text: &mut String, forms: &[Form]) -> Result<(), Fail> {
    for form in forms {
        write!(text, " ")?;
        put_form(text, form)?;
    }
    Ok(())
}

fn put_variables(text: &mut String, variables: &[u32]) -> Result<(), Fail> {
    for variable in variables {
        let variable = *variable;
        write!(text, " x{variable}")?;
    }
    Ok(())
}

/// From where each variable or array comes, in brackets; `-` where it begins anew.
fn put_picks(text: &mut String, picks: &[Option<u32>]) -> Result<(), Fail> {
    write!(text, " [")?;
    for pick in picks {
        write!(text, " ")?;
        put_number(text, *pick)?;
    }
    write!(text, " ]")?;
    Ok(())
}

fn put_arguments(text: &mut String, arguments: &[Argument]) -> Result<(), Fail> {
    for argument in arguments {
        let parameter = argument.parameter;
        write!(text, " x{parameter} = ")?;
        put_form(text, &argument.form)?;
    }
    Ok(())
}

fn put_returned(text: &mut String, returned: Option<Returned>) -> Result<(), Fail> {
    if let Some(Returned { at_exit, target }) = returned {
        write!(text, " x{at_exit} to x{target}")?;
    }
    Ok(())
}

fn put_growths(text: &mut String, growths: &[Growth]) -> Result<(), Fail> {
    for growth in growths {
        let Growth { variable, step } = *growth;
        write!(text, " x{variable}+{step}")?;
    }
    Ok(())
}

fn put_given(text: &mut String, letter: &str, given: &[Given]) -> Result<(), Fail> {
    for one in given {
        let target = one.target;
        write!(text, " {letter}{target}:")?;
        put_interval(text, one.range)?;
    }
    Ok(())
}

fn put_action(text: &mut String, action: &Action) -> Result<(), Fail> {
    match action {
        Action::AssignForm { target, form } => {
            write!(text, "x{target} = ")?;
            put_form(text, form)?;
        }
        Action::Plain { mark, args, target } => {
            write!(text, "x{target} = {mark:?}")?;
            put_forms(text, args)?;
        }
        Action::Cast { form, target } => {
            write!(text, "x{target} = cast ")?;
            put_form(text, form)?;
        }
        Action::AssignRange { target, range } => {
            write!(text, "x{target} = ")?;
            put_interval(text, *range)?;
        }
        Action::SetArray { array, summary } => {
            write!(text, "a{array} = ")?;
            put_summary(text, summary)?;
        }
        Action::Operate {
            op,
            args,
            target,
            overflow,
        } => {
            write!(text, "x{target} = {op:?}")?;
            put_forms(text, args)?;
            write!(text, " flag x{overflow}")?;
        }
        Action::Read { array, target } => write!(text, "x{target} = a{array}")?,
        Action::Write {
            array,
            value,
            length,
        } => {
            write!(text, "a{array} of {length} gets ")?;
            put_form(text, value)?;
        }
        Action::Clear { variables } => {
            write!(text, "clear")?;
            put_variables(text, variables.items())?;
        }
        Action::Keep { form, relation } => {
            write!(text, "keep ")?;
            put_form(text, form)?;
            write!(text, " {relation:?}")?;
        }
        Action::Test {
            args,
            form,
            low,
            high,
            how,
        } => {
            write!(text, "test ")?;
            put_form(text, form)?;
            write!(text, " in {low}..{high} {how:?}")?;
            put_forms(text, args.items())?;
        }
        Action::Count { word } => write!(text, "count {word:?}")?,
        Action::Enter {
            picks,
            arrays,
            arguments,
        } => {
            write!(text, "enter")?;
            put_picks(text, picks.items())?;
            put_picks(text, arrays.items())?;
            put_arguments(text, arguments.items())?;
        }
        Action::Leave {
            call,
            from_call,
            from_exit,
            arrays,
            result,
        } => {
            write!(text, "leave {call}")?;
            put_picks(text, from_call.items())?;
            put_picks(text, from_exit.items())?;
            put_picks(text, arrays.items())?;
            put_returned(text, *result)?;
        }
        Action::Reset { counters } => {
            write!(text, "reset")?;
            put_variables(text, counters.items())?;
        }
        Action::Turn { growths } => {
            write!(text, "turn")?;
            put_growths(text, growths.items())?;
        }
        Action::Tie {
            counter,
            loop_step,
            variable,
            step,
        } => write!(
            text,
            "tie x{counter} by {loop_step} to x{variable} by {step}"
        )?,
        Action::Inputs { scalars, arrays } => {
            write!(text, "inputs")?;
            put_given(text, "x", scalars.items())?;
            put_given(text, "a", arrays.items())?;
        }
    }
    Ok(())
}
