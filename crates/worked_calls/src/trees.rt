// Names that move in a tree without a device, of 64 pages.
use layout::Geometry;
use plain_tree::PlainTree;
use std::test::Fail;
use tree_model::{Command, Path, Refusal, Reply, Stat};

// What a command of this verb is answered. One path is given twice.
fn answered(tree: &mut PlainTree, verb: &str, first: &[u8], second: &[u8]) -> Result<Reply, Fail> {
    let (Ok(path), Ok(to)) = (Path::parse(first), Path::parse(second)) else {
        return Err("no path".into());
    };
    let command = match verb {
        "mkdir" => Command::Mkdir { path },
        "create" => Command::Create { path },
        "stat" => Command::Stat { path },
        "list" => Command::List { path },
        "link" => Command::Link { from: path, to },
        _ => Command::Rename { from: path, to },
    };
    Ok(tree.apply(&command))
}

// Of a directory: its inode, links and names.
fn directory(inode: u64, links: u64, amount: u64) -> Reply {
    Reply::Status(Stat {
        dir: true,
        inode,
        links,
        amount,
    })
}

#[test]
fn names_move(rt: HostRuntime) -> Result<(), Fail> {
    let geometry = Geometry::of(64).ok_or("no volume")?;
    let mut tree = PlainTree::new(rt.alloc(), geometry)?;
    let rows: [(&str, &[u8], &[u8], Reply); 15] = [
        ("mkdir", b"/d", b"/d", Reply::Done),
        ("mkdir", b"/d/e", b"/d/e", Reply::Done),
        ("create", b"/f", b"/f", Reply::Done),
        ("link", b"/f", b"/g", Reply::Done),
        ("rename", b"/f", b"/f", Reply::Done),
        ("rename", b"/f", b"/g", Reply::Done),
        (
            "rename",
            b"/d",
            b"/d/e/x",
            Reply::Refused(Refusal::IntoItself),
        ),
        ("rename", b"/d/e", b"/d", Reply::Refused(Refusal::NotEmpty)),
        ("rename", b"/f", b"/d", Reply::Refused(Refusal::IsDir)),
        ("rename", b"/d", b"/f", Reply::Refused(Refusal::NotDir)),
        ("rename", b"/", b"/x", Reply::Refused(Refusal::Root)),
        ("list", b"/", b"/", Reply::Names { inode: 1, count: 3 }),
        ("rename", b"/d/e", b"/e", Reply::Done),
        ("stat", b"/d", b"/d", directory(2, 2, 0)),
        ("stat", b"/", b"/", directory(1, 4, 4)),
    ];
    for (verb, first, second, wanted) in rows {
        assert_eq!(rt;
            answered(&mut tree, verb, first, second)?,
            wanted,
            "for {verb} {first:?}"
        );
    }
    Ok(())
}
