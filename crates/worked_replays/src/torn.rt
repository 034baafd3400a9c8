// Writes that a crash tears: of the words of a file each is the old one or the new one.
use std::test::Fail;
use worked_drivers::replays::compare_replays;
use worked_drivers::volumes::small_volume;

// A store of a value that a word has already is a choice of its own. A choice is taken modulo the number of them, here two.
#[test]
fn a_write_inside_a_file_is_torn(rt: HostRuntime) -> Result<(), Fail> {
    let old =
        "acked 2\nd 1 2 1 /\nf 2 1 32 /a 1111111111111111111111111111111111111111111111111111111111111111\n";
    let second =
        "acked 2\nd 1 2 1 /\nf 2 1 32 /a 1111111111111111222222222222222211111111111111111111111111111111\n";
    let third =
        "acked 2\nd 1 2 1 /\nf 2 1 32 /a 1111111111111111111111111111111133333333333333331111111111111111\n";
    let all =
        "acked 2\nd 1 2 1 /\nf 2 1 32 /a 1111111111111111222222222222222233333333333333331111111111111111\n";
    let volume = small_volume(rt.alloc())?;
    compare_replays(
        rt.alloc(),
        volume.as_slice(),
        "create /a\nwrite /a 0 1111111111111111111111111111111111111111111111111111111111111111\nwrite /a 0 111111111111111122222222222222223333333333333333\n",
        &[
            ("--call 3 --fence 1 --keep 00ff", second),
            ("--call 3 --fence 1 --keep 0203", second),
            ("--call 3 --fence 1 --keep ff00", third),
            ("--call 3 --fence 1 --keep 0000ff", third),
            ("--call 3 --fence 1 --keep 02", old),
            ("--call 3 --fence 1 --keep 010002", old),
            ("--call 3 --fence 1 --keep 03", all),
        ],
    )?;
    compare_replays(
        rt.alloc(),
        volume.as_slice(),
        "create /a\nwrite /a 0 1111111111111111111111111111111111111111111111111111111111111111\nwrite /a 8 22222222222222222222222222222222\n",
        &[(
            "--call 3 --fence 1 --keep 00ff",
            "acked 2\nd 1 2 1 /\nf 2 1 32 /a 1111111111111111111111111111111122222222222222221111111111111111\n",
        )],
    )
}

// Below the old size the range is torn; the size is the old one up to the last fence.
#[test]
fn a_write_past_the_end_is_torn(rt: HostRuntime) -> Result<(), Fail> {
    let volume = small_volume(rt.alloc())?;
    compare_replays(
        rt.alloc(),
        volume.as_slice(),
        "create /a\nwrite /a 0 111111111111111111111111\nwrite /a 4 22222222222222222222222222222222\n",
        &[
            (
                "--call 3 --fence 1 --keep 00",
                "acked 2\nd 1 2 1 /\nf 2 1 12 /a 111111111111111111111111\n",
            ),
            (
                "--call 3 --fence 1 --keep 00ff",
                "acked 2\nd 1 2 1 /\nf 2 1 12 /a 111111111111111122222222\n",
            ),
            (
                "--call 3 --fence 1 --keep ff00",
                "acked 2\nd 1 2 1 /\nf 2 1 12 /a 111111112222222211111111\n",
            ),
            (
                "--call 3 --fence 2 --keep 00",
                "acked 2\nd 1 2 1 /\nf 2 1 12 /a 111111112222222222222222\n",
            ),
            (
                "--call 3 --fence 2 --keep ff",
                "acked 2\nd 1 2 1 /\nf 2 1 20 /a 1111111122222222222222222222222222222222\n",
            ),
        ],
    )?;
    compare_replays(
        rt.alloc(),
        volume.as_slice(),
        "create /a\nwrite /a 0 6162\n",
        &[
            (
                "--call 2 --fence 2 --keep ff",
                "acked 1\nd 1 2 1 /\nf 2 1 0 /a -\n",
            ),
            (
                "--call 2 --fence 3 --keep 00",
                "acked 1\nd 1 2 1 /\nf 2 1 0 /a -\n",
            ),
            (
                "--call 2 --fence 3 --keep ff",
                "acked 1\nd 1 2 1 /\nf 2 1 2 /a 6162\n",
            ),
        ],
    )
}
