//! Commands over devices that do not fail. Whole commands, and so each call that allocates, are cases of case_commands
//! and case_lenses.
use editlens_main::{Status, run_sure};
use lens_io::{Bytes, SureDisk, SureSink, SureSource};
use std::test::Fail;

const SCRIPT: &str = "main {a ~ b: id int}\n---\n{\"side\":\"left\",\"edit\":[{\"add\":1}]}";

const REPORT: &str =
    "refused 1 no-apply 0 kind\nleft {\"a\":0}\nright {\"b\":0}\ncomplement {\"rec\":[null]}\n";

const USAGE: &str =
    "usage: editlens run|check|init|apply|show|verify|pack|gen N SEED|hub|link|undo K|import\n";

// Commands over an empty disk without room: the word, the input, the room of the sink, the status and what the sink
// holds then.
const SURE: [(&str, &str, u64, Status, &str); 6] = [
    ("run", SCRIPT, 79, Status::SomeRefused, REPORT),
    ("run", SCRIPT, 9, Status::SinkFault, "refused 1"),
    (
        "check",
        "main idd int",
        100,
        Status::ProgramRefused,
        "program refused: not-a-program 9\n",
    ),
    (
        "verify",
        "",
        100,
        Status::StoreRefused,
        "store refused: not-a-log\n",
    ),
    ("init", "main id int", 100, Status::DiskFault, ""),
    ("frob", "", 100, Status::Usage, USAGE),
];

// Commands over devices that do not fail: how they end, and what a sink holds.
#[test]
fn a_run_over_sure_devices(rt: HostRuntime) -> Result<(), Fail> {
    let alloc = rt.alloc();
    for (command, input, room, status, output) in SURE {
        let mut words = Vec::new(alloc);
        words.push(String::from_str(alloc, "editlens")?)?;
        words.push(String::from_str(alloc, command)?)?;
        let mut source = SureSource::new(Bytes::from_vec(input.as_bytes().to_vec(alloc)?));
        let mut sink = SureSink::new(alloc, room)?;
        let mut disk = SureDisk::new(alloc, Bytes::from_vec(Vec::new(alloc)), 0)?;
        assert_eq!(rt;
            run_sure(alloc, &words, &mut source, &mut sink, &mut disk),
            status
        );
        assert_eq!(rt; sink.bytes(), output.as_bytes());
    }
    Ok(())
}
