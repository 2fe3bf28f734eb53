//! An order, a cycle, and the dependents of a node.

use dep_order::{Graph, OrderFault, dependents, order};
use std::alloc::Global;
use std::process::Abort;

/// Makes the graph of three nodes in which 2 refers to 1, 1 to 0, and 0 to none.
fn chain(rt: &impl Abort, alloc: Global) -> Graph {
    let zero = vec![in alloc; 0].expect(rt, "a list");
    let one = vec![in alloc; 1].expect(rt, "a list");
    let lists = vec![in alloc; Vec::new(alloc), zero, one];
    Graph::of(lists.expect(rt, "lists"))
}

/// Ends the test unless these are the dependents of a node.
fn assert_dependents(rt: &impl Abort, alloc: Global, graph: &Graph, node: usize, wanted: &[usize]) {
    let found = dependents(alloc, graph, node).expect(rt, "dependents");
    assert!(rt; found.as_slice() == wanted);
}

#[test]
fn orders_nodes_and_finds_dependents(rt: HostRuntime) {
    let graph = chain(&rt, rt.alloc());
    let nodes = order(rt.alloc(), &graph).expect(&rt, "an order");
    assert!(rt; nodes.as_slice() == [0, 1, 2].as_slice());
    assert_dependents(&rt, rt.alloc(), &graph, 0, &[1, 2]);
    assert_dependents(&rt, rt.alloc(), &graph, 1, &[2]);
    assert_dependents(&rt, rt.alloc(), &graph, 2, &[]);
}

#[test]
fn finds_a_cycle(rt: HostRuntime) {
    let alloc = rt.alloc();
    let one = vec![in alloc; 1].expect(&rt, "a list");
    let zero = vec![in alloc; 0].expect(&rt, "a list");
    let ring = Graph::of(vec![in alloc; one, zero].expect(&rt, "lists"));
    let found = order(alloc, &ring);
    assert!(rt; matches!(&found, Err(OrderFault::Cycle(nodes)) if nodes.len() == 2));
}
