// Rows of what commands name, on a volume with the directory /d, inode 2, and in it the file x, inode 3.
use mount_scan::mount;
use pm_memory::RamPm;
use script::Call;
use std::alloc::Global;
use std::test::Fail;
use tree_model::Refusal;
use volume::NamedNodes;
use worked_drivers::jobs::same;
use worked_drivers::volumes::volume_after;

// A line, and whether it names inodes 1, 2 and 3; or why it names nothing.
type Row<'a> = (&'a str, Result<[bool; 3], Refusal>);

fn compare_row(alloc: Global, image: &[u64], row: Row<'_>) -> Result<(), Fail> {
    let (line, wanted) = row;
    let mut pm = RamPm::new(alloc, image)?;
    let volume = mount(alloc, &mut pm)?;
    let mut scratch = vec![in alloc; 0; 32_768]?;
    let Call::Do(command) = Call::parse(line.as_bytes(), scratch.as_mut_slice()) else {
        return Err("no command".into());
    };
    same(named_of(volume.named(&command, &pm)), wanted, line)?;
    let second = volume.names_inode(&command, 2, &pm);
    same(second, wanted.map(|names| names[1]), line)
}

fn named_of(named: Result<NamedNodes, Refusal>) -> Result<[bool; 3], Refusal> {
    match named {
        Ok(NamedNodes::All) => Ok([true; 3]),
        Ok(NamedNodes::These(inodes)) => Ok([
            inodes.contains(&Some(1)),
            inodes.contains(&Some(2)),
            inodes.contains(&Some(3)),
        ]),
        Err(refusal) => Err(refusal),
    }
}

#[test]
fn a_command_names_its_nodes_and_the_directories_that_it_changes(
    rt: HostRuntime,
) -> Result<(), Fail> {
    let image = volume_after(rt.alloc(), 16, "mkdir /d\ncreate /d/x\n")?;
    let rows: [Row<'_>; 13] = [
        ("create /d/x", Ok([false, true, true])),
        ("mkdir /e", Ok([true, false, false])),
        ("create /e/x", Err(Refusal::NotFound)),
        ("create /", Err(Refusal::Root)),
        ("link /d/x /y", Ok([true, false, true])),
        ("unlink /d/x", Ok([false, true, true])),
        ("rmdir /d", Ok([true, true, false])),
        ("rename /d /e", Ok([true, true, true])),
        ("rename /e /", Err(Refusal::NotFound)),
        ("rename / /e", Err(Refusal::Root)),
        ("read /d/x 0 1", Ok([false, false, true])),
        ("list /d/x/y", Err(Refusal::NotDir)),
        ("df", Ok([false, false, false])),
    ];
    for row in rows {
        compare_row(rt.alloc(), image.as_slice(), row)?;
    }
    Ok(())
}
