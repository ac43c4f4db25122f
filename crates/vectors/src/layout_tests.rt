// Layouts at the edges of what a capacity and an id can be.
ghost use Rattle.std.specs.Prelude.{◌≤◌};
ghost use Rattle.layouts.specs.Capacities.{size};

use layouts::{Capacity, Directed, EdgeType, Undirected};
use uneven::Uneven;

// Whether the pair that a cell names has that cell.
fn is_found_again<L: EdgeType>(layout: L, capacity: Capacity, position: usize) -> bool {
    let found = layout.to_pair(capacity, position).and_then(|(row, column)| layout.to_edge_position(
        capacity, row, column,
    ));
    found == Some(position)
}

// Whether every cell is found again by the pair that it names, and no cell is named past the last.
fn names_all<L: EdgeType>(layout: L, capacity: usize) -> bool {
    let capacity = Capacity::saturating(capacity);
    let count = layout.cell_count(capacity);
    layout.to_pair(capacity, count).is_none()
        && (0..count).all(|position| is_found_again(layout, capacity, position))
}

fn names_all_at_the_edges<L: EdgeType>(layout: L) -> bool {
    [0, 1, 4, 5, 255, 256]
        .iter()
        .all(|capacity| names_all(layout, *capacity))
}

fn cells<L: EdgeType>(layout: L, capacity: usize) -> usize {
    layout.cell_count(Capacity::saturating(capacity))
}

fn cell<L: EdgeType>(layout: L, capacity: usize, row: u8, column: u8) -> Option<usize> {
    layout.to_edge_position(Capacity::saturating(capacity), row, column)
}

fn pair<L: EdgeType>(layout: L, capacity: usize, position: usize) -> Option<(u8, u8)> {
    layout.to_pair(Capacity::saturating(capacity), position)
}

fn grown<L: EdgeType>(layout: L, node_count: usize) -> usize {
    layout
        .grown_capacity(Capacity::saturating(node_count))
        .get()
}

// The bound of a capacity behind a reference, which no call tells.
fn check_lent(capacity: &Capacity)
    ensures { size capacity.now ≤ 256 }
{}

// The bound of one that goes through a loop.
fn grown_often<L: EdgeType>(layout: L, capacity: Capacity, times: u8) -> Capacity
    ensures { size result ≤ 256 }
{
    let mut grown = capacity;
    for _ in 0..times {
        grown = layout.grown_capacity(grown);
    }
    grown
}

#[test]
fn a_capacity_keeps_its_bound(rt: HostRuntime) {
    let capacity = grown_often(Uneven, Capacity::saturating(0), 100);
    check_lent(&capacity);
    assert_eq!(rt; capacity.get(), 256);
}

#[test]
fn every_cell_is_named_and_found_again(rt: HostRuntime) {
    assert!(rt; names_all_at_the_edges(Directed));
    assert!(rt; names_all_at_the_edges(Undirected));
    assert!(rt; names_all_at_the_edges(Uneven));
}

#[test]
fn a_square_has_a_cell_for_each_pair(rt: HostRuntime) {
    assert_eq!(rt; cells(Directed, 0), 0);
    assert_eq!(rt; cells(Directed, 1), 1);
    assert_eq!(rt; cells(Directed, 5), 25);
    assert_eq!(rt; cells(Directed, 256), 65536);
    assert_eq!(rt; cell(Directed, 0, 0, 0), None);
    assert_eq!(rt; cell(Directed, 4, 3, 2), Some(14));
    assert_eq!(rt; cell(Directed, 8, 3, 2), Some(26));
    assert_eq!(rt; cell(Directed, 8, 2, 3), Some(19));
    assert_eq!(rt; cell(Directed, 4, 0, 4), None);
    assert_eq!(rt; cell(Directed, 4, 4, 0), None);
    assert_eq!(rt; cell(Directed, 255, 255, 0), None);
    assert_eq!(rt; cell(Directed, 256, 255, 255), Some(65535));
    assert_eq!(rt; pair(Directed, 8, 26), Some((3, 2)));
    assert_eq!(rt; pair(Directed, 256, 65535), Some((255, 255)));
    assert_eq!(rt; pair(Directed, 256, 65536), None);
}

#[test]
fn a_triangle_has_a_cell_for_each_pair_and_its_mirror(rt: HostRuntime) {
    assert_eq!(rt; cells(Undirected, 0), 0);
    assert_eq!(rt; cells(Undirected, 1), 1);
    assert_eq!(rt; cells(Undirected, 5), 15);
    assert_eq!(rt; cells(Undirected, 256), 32896);
    assert_eq!(rt; cell(Undirected, 5, 2, 4), Some(12));
    assert_eq!(rt; cell(Undirected, 5, 4, 2), Some(12));
    assert_eq!(rt; cell(Undirected, 256, 4, 2), Some(12));
    assert_eq!(rt; cell(Undirected, 4, 4, 2), None);
    assert_eq!(rt; cell(Undirected, 256, 0, 255), Some(32640));
    assert_eq!(rt; cell(Undirected, 256, 255, 255), Some(32895));
    assert_eq!(rt; pair(Undirected, 5, 12), Some((4, 2)));
    assert_eq!(rt; pair(Undirected, 256, 32640), Some((255, 0)));
    assert_eq!(rt; pair(Undirected, 256, 32895), Some((255, 255)));
    assert_eq!(rt; pair(Undirected, 256, 32896), None);
}

#[test]
fn a_layout_may_share_some_mirrored_pairs(rt: HostRuntime) {
    assert_eq!(rt; cell(Uneven, 4, 3, 0), cell(Uneven, 4, 0, 3));
    assert_eq!(rt; cell(Uneven, 4, 1, 2), Some(5));
    assert_eq!(rt; cell(Uneven, 4, 2, 1), Some(7));
    assert_eq!(rt; cells(Uneven, 4), 13);
}

#[test]
fn layouts_grow(rt: HostRuntime) {
    assert_eq!(rt; grown(Directed, 0), 4);
    assert_eq!(rt; grown(Directed, 1), 4);
    assert_eq!(rt; grown(Directed, 4), 4);
    assert_eq!(rt; grown(Directed, 5), 8);
    assert_eq!(rt; grown(Directed, 8), 8);
    assert_eq!(rt; grown(Directed, 9), 16);
    assert_eq!(rt; grown(Directed, 128), 128);
    assert_eq!(rt; grown(Directed, 129), 256);
    assert_eq!(rt; grown(Directed, 256), 256);
    assert_eq!(rt; grown(Undirected, 0), 0);
    assert_eq!(rt; grown(Undirected, 5), 5);
    assert_eq!(rt; grown(Undirected, 256), 256);
    assert_eq!(rt; grown(Uneven, 5), 8);
    assert_eq!(rt; grown(Uneven, 254), 256);
}

#[test]
fn a_capacity_is_at_most_256(rt: HostRuntime) {
    assert_eq!(rt; Capacity::saturating(0).get(), 0);
    assert_eq!(rt; Capacity::saturating(256).get(), 256);
    assert_eq!(rt; Capacity::saturating(257).get(), 256);
    assert_eq!(rt; Capacity::saturating(18446744073709551615).get(), 256);
}
