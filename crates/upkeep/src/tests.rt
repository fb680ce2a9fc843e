//! The program over a real directory.
use crate::maintain;
use ice_store::Text;
use std::test::Fail;
use std::{env, fs};

// The metadata of a table in the folder of this name, with the snapshots 11 and 22, of which 22 is the current one.
fn metadata(rt: &HostRuntime, folder: &str) -> Result<String, Fail> {
    let alloc = rt.alloc();
    let at = env::current_dir(rt)?;
    let location = format!(in alloc; "{}/{folder}", at.as_path().as_str())?;
    Ok(two_snapshots().replace(alloc, "/w/t", location.as_str())?)
}

// In a function with no clause, so that no proof carries the text.
fn two_snapshots() -> &'static str {
    "{\"format-version\":2,\"table-uuid\":\"9c12d441-03fe-4693-9a96-a0705ddf69c1\",\"location\":\"/w/t\",\"last-sequence-number\":2,\"last-updated-ms\":2000,\"last-column-id\":1,\"current-schema-id\":0,\"schemas\":[{\"type\":\"struct\",\"schema-id\":0,\"fields\":[{\"id\":1,\"name\":\"id\",\"required\":true,\"type\":\"long\"}]}],\"default-spec-id\":0,\"partition-specs\":[{\"spec-id\":0,\"fields\":[]}],\"last-partition-id\":999,\"default-sort-order-id\":0,\"sort-orders\":[{\"order-id\":0,\"fields\":[]}],\"current-snapshot-id\":22,\"refs\":{\"main\":{\"snapshot-id\":22,\"type\":\"branch\"}},\"snapshots\":[{\"snapshot-id\":11,\"sequence-number\":1,\"timestamp-ms\":1000,\"manifest-list\":\"/w/t/metadata/l11.avro\",\"summary\":{\"operation\":\"append\"}},{\"snapshot-id\":22,\"parent-snapshot-id\":11,\"sequence-number\":2,\"timestamp-ms\":2000,\"manifest-list\":\"/w/t/metadata/l22.avro\",\"summary\":{\"operation\":\"append\"}}]}"
}

// that table at version 3
fn write_table(rt: &HostRuntime, folder: &str) -> Result<(), Fail> {
    let alloc = rt.alloc();
    let below = format!(in alloc; "{folder}/metadata")?;
    let file = format!(in alloc; "{folder}/metadata/v3.metadata.json")?;
    let content = metadata(rt, folder)?;
    fs::create_dir(rt, folder)?;
    fs::create_dir(rt, below.as_str())?;
    fs::write(rt, file.as_str(), content.as_str())?;
    Ok(())
}

// whether the metadata of a version has this current snapshot
fn has_current(rt: &HostRuntime, file: &str, id: u64) -> Result<bool, Fail> {
    let member = format!(in rt.alloc(); "\"current-snapshot-id\":{id},")?;
    Ok(fs::read_to_string(rt, file)?.contains(member.as_str()))
}

// the exit status of the program for a rollback of that table
fn rolled_back(rt: HostRuntime, folder: &str, id: u64) -> Result<u8, Fail> {
    let alloc = rt.alloc();
    let at = env::current_dir(&rt)?;
    let at = at.as_path().as_str();
    let word = format!(in alloc;
        "CALL c.system.rollback_to_snapshot(table => '{at}/{folder}', snapshot_id => {id})"
    )?;
    let words = vec![in alloc; Text::new(word.into_bytes())]?;
    match maintain(rt, &words) {
        Ok(status) => Ok(status),
        Err(unstarted) => Ok(unstarted.number()),
    }
}

#[test]
fn rolls_back_a_real_table(rt: HostRuntime) -> Result<(), Fail> {
    write_table(&rt, "rolled_back")?;
    assert_eq!(rt; rolled_back(rt, "rolled_back", 99)?, 1);
    assert_eq!(rt; rolled_back(rt, "rolled_back", 11)?, 0);
    assert!(rt; has_current(&rt, "rolled_back/metadata/v3.metadata.json", 22)?);
    assert!(rt; has_current(&rt, "rolled_back/metadata/v4.metadata.json", 11)?);
    Ok(())
}
