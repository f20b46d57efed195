use crate::node::{Link, Node, NodeId};
use crate::{Graph, Spliced};
use mac_base::Bytes;
use std::alloc::Global;
use std::test::Fail;

/// The entries, each with a line feed.
pub(crate) fn printed(alloc: Global, graph: &Graph<'_>) -> Result<Vec<u8>, Fail> {
    let paths = graph.paths();
    let mut text = Vec::new(alloc);
    for entry in graph.entries()? {
        match entry? {
            Spliced::Define { text: body, .. } => {
                text.extend_from_slice(b"define ")?;
                text.extend_from_slice(body)?;
            }
            Spliced::Undef { name, .. } => {
                text.extend_from_slice(b"undef ")?;
                text.extend_from_slice(name)?;
            }
            Spliced::Start { file, .. } => {
                prove!(file < paths);
                text.extend_from_slice(b"start ")?;
                text.extend_from_slice(graph.path(file))?;
            }
            Spliced::End => text.extend_from_slice(b"end")?,
        }
        text.push(b'\n')?;
    }
    Ok(text)
}

/// A definition, a unit that imports it between two others, and a root that imports the unit twice inside a file.
fn three_units(alloc: Global) -> Result<Graph<'static>, Fail> {
    let define = Node {
        links: vec![in alloc;
            Link::Own(Spliced::Define {
                line: 1,
                text: b"A 1"
            }),
        ]?,
        count: 1,
    };
    let undef = Node {
        links: vec![in alloc;
            Link::Own(Spliced::Undef {
                line: 1,
                name: b"A"
            }),
            Link::Import(NodeId { index: 0 }),
        ]?,
        count: 2,
    };
    let root = Node {
        links: vec![in alloc;
            Link::Own(Spliced::Start { line: 0, file: 0 }),
            Link::Import(NodeId { index: 1 }),
            Link::Import(NodeId { index: 1 }),
            Link::Own(Spliced::End),
        ]?,
        count: 6,
    };
    let nodes = vec![in alloc; define, undef, root]?;
    let mut path = Bytes::new(alloc);
    path.push(b'm')?;
    let paths = vec![in alloc; path]?;
    Ok(Graph::of(alloc, nodes, 6, paths))
}

#[test]
fn entries_come_in_the_order_of_the_walk(rt: HostRuntime) -> Result<(), Fail> {
    let alloc = rt.alloc();
    let graph = three_units(alloc)?;
    assert_eq!(rt;
        printed(alloc, &graph)?.as_slice(),
        b"start m\nundef A\ndefine A 1\nundef A\ndefine A 1\nend\n".as_slice()
    );
    assert_eq!(rt; graph.count(), 6);
    assert_eq!(rt; graph.entries()?.count(), 6);
    assert_eq!(rt; graph.paths(), 1);
    Ok(())
}
