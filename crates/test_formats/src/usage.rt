//! What the usage tells.

use std::test::Fail;
use usage_text::{is_command, usage_text};

#[test]
fn names_each_command(rt: HostRuntime) -> Result<(), Fail> {
    let text = usage_text(rt.alloc())?;
    for part in [
        "Usage: mpc_cli run --key <K>\n",
        "Usage: mpc_cli serve --key <K> --connections <N>\n",
        "Usage: mpc_cli export\n",
        "Usage: mpc_cli workload --seed <S> --count <M>\n",
        "Usage: mpc_cli mirror\n",
        "Usage: mpc_cli look --from <A> --to <B>\n",
        "Usage: mpc_cli comets --key <K>\n",
        "Example: mpc_cli workload --seed 7 --count 3\n",
        "1 to 1000\n",
        "0 to 18446744073709551615\n",
        "1 to 20000\n",
        "Example: mpc_cli look --from 2024-03-16 --to 2024-03-17\n",
        "The day after the last of them, as YYYY-MM-DD, of the years 1800 to 2199\n",
        "on the journal desk.journal2 of the current folder\n",
        "  5  Damaged: file 2, desk.journal2, 1, desk.journal, or 3, desk.comets, is damaged at this offset\n",
        "  9  DoorFault: the port failed\n",
        " 10  MirrorFault: the mirror failed\n",
        " 11  TooMany: the catalogue has too many observations or objects for a mirror\n",
        "\nmpc_cli 0.10\n",
    ] {
        assert!(rt; text.as_str().contains(part), "{part} in {text}");
    }
    Ok(())
}

#[test]
fn knows_each_command(rt: HostRuntime) {
    for name in [
        "run", "serve", "export", "workload", "mirror", "look", "comets",
    ] {
        assert!(rt; is_command(name), "{name}");
    }
    for name in ["", "rum", "Run", "run ", "help", "--version"] {
        assert!(rt; !is_command(name), "{name}");
    }
}
