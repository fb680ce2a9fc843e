//! The command over a real directory.
use crate::fixtures::{clock, shown_sink, sink};
use ice_store::{Alone, Text};
use metadata_tests::three_snapshots;
use std::test::Fail;
use std::{env, fs};
use store_directory::DirStore;
use store_memory::CountIds;
use upkeep_top::run;

// The table of three snapshots in a folder of this name below the one that all tests run in.
fn write_table(rt: &HostRuntime, table: &str) -> Result<(), Fail> {
    let alloc = rt.alloc();
    let folder = env::current_dir(rt)?;
    let location = format!(in alloc; "\"location\":\"{}/{table}\"", folder.as_path().as_str())?;
    let metadata = three_snapshots().replace(alloc, "\"location\":\"/w/t\"", location.as_str())?;
    let below = format!(in alloc; "{table}/metadata")?;
    let file = format!(in alloc; "{table}/metadata/v3.metadata.json")?;
    fs::create_dir(rt, table)?;
    fs::create_dir(rt, below.as_str())?;
    fs::write(rt, file.as_str(), metadata.as_str())?;
    Ok(())
}

// a call of a procedure on the table in the folder of this name
fn call_of(rt: &HostRuntime, table: &str, procedure: &str, id: i64) -> Result<Text, Fail> {
    let alloc = rt.alloc();
    let folder = env::current_dir(rt)?;
    let at = folder.as_path().as_str();
    let word = format!(in alloc;
        "CALL c.system.{procedure}(table => '{at}/{table}', snapshot_id => {id})"
    )?;
    Ok(Text::new(word.into_bytes()))
}

// the table rolled back to 22, and then the ancestors of 22: the status, how many versions were published, and the output
fn run_two(rt: HostRuntime) -> Result<String, Fail> {
    let alloc = rt.alloc();
    let words = vec![in alloc;
        call_of(&rt, "two_statements", "rollback_to_snapshot", 22)?,
        call_of(&rt, "two_statements", "ancestors_of", 22)?,
    ]?;
    let mut store = DirStore::new(rt, Alone);
    let mut clock = clock(alloc)?;
    let mut out = sink(alloc)?;
    let mut err = sink(alloc)?;
    let mut ids = CountIds::new();
    let ran = run(
        &rt, &words, &mut store, &mut clock, &mut ids, &mut out, &mut err,
    );
    let status = ran.status.number();
    let published = ran.committed.len();
    let report = shown_sink(&out);
    let message = shown_sink(&err);
    Ok(format!(in alloc; "{status} published {published}\n{report}{message}")?)
}

#[test]
fn runs_two_statements_on_a_real_table(rt: HostRuntime) -> Result<(), Fail> {
    write_table(&rt, "two_statements")?;
    assert_eq!(rt;
        run_two(rt)?.as_str(),
        "0 published 1\nprevious_snapshot_id\tcurrent_snapshot_id\n33\t22\nsnapshot_id\ttimestamp\n22\t2000\n11\t1000\n"
    );
    let metadata = fs::read_to_string(&rt, "two_statements/metadata/v4.metadata.json")?;
    assert!(rt; metadata.contains("\"current-snapshot-id\":22"));
    Ok(())
}
