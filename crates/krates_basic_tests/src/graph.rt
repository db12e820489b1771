//! The graph: its limits, its edges by number, and what is read from it; and the agenda.

use krates_graph::agenda::{Agenda, Taken};
use krates_graph::graph::{Direction, EdgeId, Graph, GraphError, NodeId};
use krates_samples::table::{Tell, compare, hold_lines};
use krates_text::text::Text;
use std::alloc::Global;
use std::test::Fail;

/// Two edges that join the same nodes, one back, one from a node to itself and one from a third node; of each the ends
/// and the weight.
static JOINED: &[(u32, u32, u8)] = &[(0, 1, 10), (1, 0, 11), (0, 1, 12), (1, 1, 13), (2, 1, 14)];

/// The joined nodes.
static JOINED_NODES: &[char] = &['a', 'b', 'c'];

/// A node of a graph and the direction of its edges, and what is known of these: their numbers, and each edge with its ends and its
/// weight.
static EDGES: &str = "
joined 0 out => [EdgeId(0), EdgeId(2)] (0, 0, 1, 10) (2, 0, 1, 12)
joined 0 in => [EdgeId(1)] (1, 1, 0, 11)
joined 1 out => [EdgeId(1), EdgeId(3)] (1, 1, 0, 11) (3, 1, 1, 13)
joined 2 out => [EdgeId(4)] (4, 2, 1, 14)
joined 2 in => []
// no such node
joined 3 out => []
joined 9 in => []
// the node that all but one edge enter
joined 1 in => [EdgeId(0), EdgeId(2), EdgeId(3), EdgeId(4)] (0, 0, 1, 10) (2, 0, 1, 12) (3, 1, 1, 13) (4, 2, 1, 14)
// the edges that leave the one crate and those that enter the other
features 0 out => [EdgeId(0), EdgeId(1)] (0, 0, 1, 0) (1, 0, 4, 1)
features 1 in => [EdgeId(0), EdgeId(3), EdgeId(6)] (0, 0, 1, 0) (3, 2, 1, 1) (6, 4, 1, 1)
";

/// Crates 0 and 1, the feature 4 of 1 that 0 turns on, and two features in between; the weight is 1 where a feature is an end.
static BETWEEN_FEATURES: &[(u32, u32, u8)] = &[
    (0, 1, 0),
    (0, 4, 1),
    (2, 0, 1),
    (2, 1, 1),
    (3, 0, 1),
    (3, 4, 1),
    (4, 1, 1),
];

/// The nodes of that graph.
static CRATES_AND_FEATURES: &[char] = &['a', 'b', 'b', 'w', 'j'];

/// Adds these nodes.
fn add_nodes(graph: &mut Graph<char, u8>, nodes: &[char]) -> Result<(), GraphError<char>> {
    for &node in nodes {
        graph.add_node(node)?;
    }
    Ok(())
}

/// Adds an edge, with its ends and its weight.
fn add_edge(graph: &mut Graph<char, u8>, edge: (u32, u32, u8)) -> Result<(), Fail> {
    let (source, target, weight) = edge;
    let stands = graph.node_count();
    if source as usize >= stands || target as usize >= stands {
        return Err(Fail::from("no such node"));
    }
    graph.add_edge(NodeId::new(source), NodeId::new(target), weight)?;
    Ok(())
}

/// Adds these edges.
fn add_edges(graph: &mut Graph<char, u8>, edges: &[(u32, u32, u8)]) -> Result<(), Fail> {
    for &edge in edges {
        add_edge(graph, edge)?;
    }
    Ok(())
}

/// Adds these nodes and edges, for which there is room then.
fn fill(graph: &mut Graph<char, u8>, nodes: &[char], edges: &[(u32, u32, u8)]) -> Result<(), Fail> {
    graph.reserve(nodes.len(), edges.len())?;
    add_nodes(graph, nodes)?;
    add_edges(graph, edges)
}

/// The graph of this name: that of the joined nodes, or the one with features between crates. It has room for no more.
fn graph_named(alloc: Global, name: &str) -> Result<Graph<char, u8>, Fail> {
    let (nodes, edges) = match name {
        "joined" => (JOINED_NODES, JOINED),
        _ => (CRATES_AND_FEATURES, BETWEEN_FEATURES),
    };
    let mut graph = Graph::with_limits(alloc, nodes.len() as u32, edges.len() as u32);
    fill(&mut graph, nodes, edges)?;
    Ok(graph)
}

/// Adds of a node and a direction the numbers of the edges, and each edge with its ends and its weight.
fn push_edges(told: &mut Text, graph: &Graph<char, u8>, node: NodeId, direction: Direction) {
    write!(told, "{:?}", graph.edge_numbers(node, direction));
    for edge in graph.edges_directed(node, direction) {
        let (source, target) = (edge.source.index(), edge.target.index());
        let shown = (edge.id.index(), source, target, *edge.weight);
        write!(told, " {shown:?}");
    }
}

/// The edges of a node of a graph in a direction, `out` or `in`.
struct Edges;

impl Tell for Edges {
    fn tell(told: &mut Text, line: &str) -> Result<(), Fail> {
        let (name, place) = line.split_once(' ').unwrap_or((line, ""));
        let (node, direction) = place.split_once(' ').unwrap_or((place, ""));
        let direction = match direction {
            "out" => Direction::Outgoing,
            _ => Direction::Incoming,
        };
        let node = NodeId::new(node.parse()?);
        let graph = graph_named(told.allocator(), name)?;
        push_edges(told, &graph, node, direction);
        Ok(())
    }
}

/// The result of adding two nodes and two edges in a graph of these limits.
fn told_of_two(alloc: Global, graph: &mut Graph<char, char>) -> Result<String, Fail> {
    let node = graph.add_node('x')?;
    let no_node = graph.add_node('y');
    let edge = graph.add_edge(node, node, 'e')?;
    let no_edge = graph.add_edge(node, node, 'f');
    let told = (
        node.index(),
        no_node,
        edge.index(),
        no_edge,
        graph.node_count(),
        graph.edge_count(),
    );
    Ok(format!(in alloc; "{told:?}")?)
}

#[test]
fn limits_refuse_one_more(rt: HostRuntime) -> Result<(), Fail> {
    let mut graph = Graph::with_limits(rt.alloc(), 1, 1);
    let told = told_of_two(rt.alloc(), &mut graph)?;
    let expected = "(0, Err(Full('y')), 0, Err(Full('f')), 1, 1)";
    compare("room for one", told.as_str(), expected)
}

/// Refusals, and their texts.
static TEXTS: &str = "
Full => too many nodes or edges
Memory => out of memory
";

/// What a refusal prints.
struct Printed;

impl Tell for Printed {
    fn tell(told: &mut Text, name: &str) -> Result<(), Fail> {
        let error = if name == "Full" {
            GraphError::Full('x')
        } else {
            GraphError::Memory('x')
        };
        write!(told, "{error}");
        Ok(())
    }
}

#[test]
fn no_limit_takes_nothing(rt: HostRuntime) {
    let mut graph = Graph::<char, char>::with_limits(rt.alloc(), 0, 0);
    let refused = graph.add_node('x');
    assert_eq!(rt;
        (refused, graph.node_count()),
        (Err(GraphError::Full('x')), 0)
    );
}

#[test]
fn edges_of_a_node_come_by_number_and_refusals_are_printed(rt: HostRuntime) -> Result<(), Fail> {
    hold_lines::<Edges>(rt.alloc(), EDGES)?;
    hold_lines::<Printed>(rt.alloc(), TEXTS)
}

/// Whether a node and an edge of it are added under the next numbers, or the one that isn't is returned and changes nothing.
fn grows_or_stays(graph: &mut Graph<u32, u32>, value: u32) -> bool {
    let nodes = graph.node_count();
    let edges = graph.edge_count();
    match graph.add_node(value) {
        Ok(node) => {
            node.index() == nodes
                && match graph.add_edge(node, node, value) {
                    Ok(edge) => edge.index() == edges,
                    Err(error) => {
                        error == GraphError::Memory(value) && graph.edge_count() == edges
                    }
                }
        }
        Err(error) => error == GraphError::Memory(value) && graph.node_count() == nodes,
    }
}

/// Holds whichever growth is refused; each is, in turn, where the test is run with a failing allocation.
#[test]
fn a_refused_growth_changes_nothing(rt: HostRuntime) {
    let mut graph = Graph::with_limits(rt.alloc(), 9, 9);
    for value in 0..9u32 {
        assert!(rt; grows_or_stays(&mut graph, value), "{value}");
    }
}

/// The nodes of a graph, the number of its edges, and the ends of two of them.
#[test]
fn lists_and_ends_are_read(rt: HostRuntime) -> Result<(), Fail> {
    let mut graph = graph_named(rt.alloc(), "joined")?;
    graph.reserve(9, 9)?;
    let told = (
        graph.raw_nodes(),
        graph.raw_edges().len(),
        graph.edge_endpoints(EdgeId::new(4)),
        graph.edge_endpoints(EdgeId::new(5)),
    );
    let ends = Some((NodeId::new(2), NodeId::new(1)));
    assert_eq!(rt; told, (JOINED_NODES, 5, ends, None));
    Ok(())
}

/// Adds two nodes, and reads the second by its number.
fn second_of_two(graph: &mut Graph<char, u8>) -> Result<char, GraphError<char>> {
    graph.add_node('a')?;
    let second = graph.add_node('b')?;
    Ok(graph[second])
}

#[test]
fn a_node_is_indexed(rt: HostRuntime) -> Result<(), Fail> {
    let mut graph = Graph::<char, u8>::with_limits(rt.alloc(), 2, 0);
    assert_eq!(rt; second_of_two(&mut graph)?, 'b');
    Ok(())
}

#[test]
fn ids_go_by_number(rt: HostRuntime) {
    let by_number = [
        NodeId::new(1) < NodeId::new(2),
        EdgeId::new(2) > EdgeId::new(1),
        NodeId::new(7) == NodeId::new(7),
        EdgeId::new(7) != EdgeId::new(8),
    ];
    assert_eq!(rt; by_number, [true; 4]);
}

/// The number that was taken, if one was.
fn number(taken: Option<Taken>) -> Option<usize> {
    taken.map(|taken| taken.number())
}

#[test]
fn numbers_are_taken_once_in_the_order_of_their_puts(rt: HostRuntime) -> Result<(), Fail> {
    let mut agenda = Agenda::new(rt.alloc(), 4)?;
    let first_puts = [agenda.put(3), agenda.put(1), agenda.put(3)];
    let taken_at_first = agenda.taken();
    let first = number(agenda.take());
    let later_puts = [agenda.put(3), agenda.put(0)];
    let later = [
        number(agenda.take()),
        number(agenda.take()),
        number(agenda.take()),
    ];
    assert_eq!(rt;
        (first_puts, taken_at_first, first, later_puts, later),
        (
            [true, true, false],
            0,
            Some(3),
            [false, true],
            [Some(1), Some(0), None]
        )
    );
    assert_eq!(rt;
        (agenda.taken(), agenda.numbers()),
        (3, [3, 1, 0].as_slice())
    );
    Ok(())
}
