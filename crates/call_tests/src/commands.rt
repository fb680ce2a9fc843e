use call_syntax::{Arg, ArgErr, ArgValue, Call, Command, OptionValues, PairTexts, Target, typed};
use ice_store::{Items, Place, Text, TextList};
use std::alloc::{AllocError, Global};
use std::test::Fail;

/// A value of a table of calls.
#[derive(Clone, Copy)]
enum Value {
    Str(&'static str),
    Number(&'static str),
    Flag(bool),
    Null,
    Moment(&'static str),
    Map(&'static [(&'static str, &'static str)]),
    Array(&'static [&'static str]),
}

use Value::{Array, Flag, Map, Moment, Null, Number, Str};

/// An argument, which stands by its place where its name is empty.
type Argument = (&'static str, Value);

const T: Argument = ("table", Str("/w/t"));

fn text_of(alloc: Global, text: &str) -> Result<Text, AllocError> {
    Text::copy_of(alloc, text.as_bytes())
}

fn texts_of(alloc: Global, texts: &[&str]) -> Result<TextList, AllocError> {
    let mut list = Items::empty(alloc);
    for text in texts {
        list.push(text_of(alloc, text)?)?;
    }
    Ok(list)
}

fn pair_of(alloc: Global, pair: (&str, &str)) -> Result<(Text, Text), AllocError> {
    let key = text_of(alloc, pair.0)?;
    Ok((key, text_of(alloc, pair.1)?))
}

fn pairs_of(alloc: Global, pairs: &[(&str, &str)]) -> Result<PairTexts, AllocError> {
    let mut list = Items::empty(alloc);
    for pair in pairs {
        list.push(pair_of(alloc, *pair)?)?;
    }
    Ok(list)
}

fn value_of(alloc: Global, value: Value) -> Result<ArgValue, AllocError> {
    Ok(match value {
        Str(text) => ArgValue::Str(text_of(alloc, text)?),
        Number(text) => ArgValue::Number(text_of(alloc, text)?),
        Flag(flag) => ArgValue::Bool(flag),
        Null => ArgValue::Null,
        Moment(text) => ArgValue::Moment(text_of(alloc, text)?),
        Map(pairs) => ArgValue::Map(pairs_of(alloc, pairs)?),
        Array(texts) => ArgValue::Array(texts_of(alloc, texts)?),
    })
}

fn name_of(alloc: Global, name: &str) -> Result<Option<Text>, AllocError> {
    if name.is_empty() {
        Ok(None)
    } else {
        Ok(Some(text_of(alloc, name)?))
    }
}

fn arg_of(alloc: Global, argument: Argument) -> Result<Arg, AllocError> {
    let name = name_of(alloc, argument.0)?;
    Ok(Arg {
        name,
        value: value_of(alloc, argument.1)?,
    })
}

fn args_of(alloc: Global, arguments: &[Argument]) -> Result<Items<Arg>, AllocError> {
    let mut list = Items::empty(alloc);
    for argument in arguments {
        list.push(arg_of(alloc, *argument)?)?;
    }
    Ok(list)
}

fn call_of(alloc: Global, procedure: &str, arguments: &[Argument]) -> Result<Call, AllocError> {
    let catalog = text_of(alloc, "hive_prod")?;
    let args = args_of(alloc, arguments)?;
    Ok(Call {
        catalog,
        procedure: text_of(alloc, procedure)?,
        args,
    })
}

fn command_of(alloc: Global, procedure: &str, arguments: &[Argument]) -> Result<Command, Fail> {
    let call = call_of(alloc, procedure, arguments)?;
    Ok(typed(alloc, &call)?)
}

fn is_text(text: &Text, expected: &str) -> bool {
    text.inner().as_slice() == expected.as_bytes()
}

fn is_part(part: Option<&Text>, expected: &str) -> bool {
    match part {
        Some(part) => is_text(part, expected),
        None => expected.is_empty(),
    }
}

// the place has these parts, of which the last may lack
fn is_at(place: &Place, parts: [&str; 3]) -> bool {
    is_part(place.part(0), parts[0])
        && is_part(place.part(1), parts[1])
        && is_part(place.part(2), parts[2])
        && place.part(3).is_none()
}

fn is_optionally_at(place: &Option<Place>, parts: [&str; 3]) -> bool {
    match place {
        Some(place) => is_at(place, parts),
        None => false,
    }
}

fn is_expected_target(target: &Target) -> bool {
    match target {
        Target::Id(id) => *id == 9_223_372_036_854_775_807,
        Target::Ref(name) => is_text(name, "b"),
    }
}

fn has_numbers(options: &OptionValues, numbers: [u64; 8]) -> bool {
    options.target.unwrap_or(0) == numbers[0]
        && options.min_size.unwrap_or(0) == numbers[1]
        && options.max_size.unwrap_or(0) == numbers[2]
        && options.min_files == numbers[3]
        && options.max_group == numbers[4]
        && options.max_commits == numbers[5]
        && options.concurrent == numbers[6]
        && options.threshold == numbers[7]
}

fn has_flags(options: &OptionValues, flags: [bool; 4]) -> bool {
    options.all == flags[0]
        && options.partial == flags[1]
        && options.keep_sequence == flags[2]
        && options.dangling == flags[3]
}

const FILES: [Argument; 4] = [
    ("", Str("file:/w//t/")),
    ("", Moment("2024-02-29 00:00:00.500999")),
    ("", Str("/w/t/data/")),
    ("", Flag(true)),
];

const DATA: [Argument; 5] = [
    T,
    ("strategy", Str("binpack")),
    ("sort_order", Null),
    (
        "options",
        Map(&[
            ("target-file-size-bytes", "1"),
            ("min-file-size-bytes", "002"),
            ("max-file-size-bytes", "3"),
            ("min-input-files", "4"),
            ("max-file-group-size-bytes", "9223372036854775807"),
            ("rewrite-all", "true"),
            ("partial-progress.enabled", "true"),
            ("partial-progress.max-commits", "6"),
            ("max-concurrent-file-group-rewrites", "7"),
            ("delete-file-threshold", "8"),
            ("use-starting-sequence-number", "false"),
            ("remove-dangling-deletes", "true"),
        ]),
    ),
    ("where", Null),
];

const SNAPSHOTS: [Argument; 4] = [
    ("SNAPSHOT_IDS", Array(&["2", "-9223372036854775808"])),
    ("retain_last", Number("2147483647")),
    ("older_than", Moment("1969-12-31T23:59:59.999")),
    T,
];

const PATHS: [Argument; 6] = [
    ("", Str("/w/t")),
    ("", Str("/w/s")),
    ("", Str("/new/t")),
    ("", Null),
    ("", Null),
    ("", Str("/stage")),
];

/// Each procedure with all its arguments.
const CALLS: [(&str, &[Argument]); 12] = [
    (
        "Rollback_To_Snapshot",
        &[T, ("Snapshot_Id", Number("-0011l"))],
    ),
    (
        "set_current_snapshot",
        &[
            ("", Str("/w/t")),
            ("", Number("9223372036854775807L")),
            ("", Null),
        ],
    ),
    (
        "set_current_snapshot",
        &[("ref", Str("b")), ("snapshot_id", Null), T],
    ),
    (
        "FAST_FORWARD",
        &[("", Str("/w/t")), ("", Str("b")), ("", Str("main"))],
    ),
    ("ancestors_of", &[("snapshot_id", Number("-0")), T]),
    ("expire_snapshots", &SNAPSHOTS),
    ("remove_orphan_files", &FILES),
    ("rewrite_data_files", &DATA),
    (
        "rewrite_manifests",
        &[
            ("", Str("/w/t")),
            ("", Flag(false)),
            ("", Number("-2147483648")),
        ],
    ),
    (
        "rewrite_position_delete_files",
        &[
            ("", Str("/w/t")),
            ("", Map(&[("rewrite-all", "false")])),
            ("", Null),
        ],
    ),
    ("rewrite_table_path", &PATHS),
    (
        "generate",
        &[T, ("number", Number("0")), ("rows", Number("10000000"))],
    ),
];

// what the calls above ask for
fn is_expected(command: &Command) -> bool {
    match command {
        Command::Rollback { snapshot_id, .. } => *snapshot_id == -11,
        Command::SetCurrent { target, .. } => is_expected_target(target),
        Command::FastForward { branch, to, .. } => is_text(branch, "b") && is_text(to, "main"),
        Command::Ancestors { snapshot_id, .. } => *snapshot_id == Some(0),
        Command::Expire {
            older_than,
            retain_last,
            snapshot_ids,
            ..
        } => {
            *older_than == Some(0)
                && *retain_last == Some(2_147_483_647)
                && snapshot_ids.inner().as_slice() == [2, i64::MIN].as_slice()
        }
        Command::RemoveOrphans {
            older_than,
            location,
            dry_run,
            ..
        } => {
            *older_than == Some(1_709_164_800_500)
                && is_optionally_at(location, ["w", "t", "data"])
                && *dry_run
        }
        Command::RewriteData {
            sort,
            sort_order,
            options,
            filter,
            ..
        } => {
            !*sort
                && sort_order.is_none()
                && filter.is_none()
                && has_numbers(options, [1, 2, 3, 4, 9_223_372_036_854_775_807, 6, 7, 8])
                && has_flags(options, [true, true, false, true])
        }
        Command::RewriteManifests { spec_id, .. } => *spec_id == Some(-2_147_483_648),
        Command::RewriteDeletes {
            options,
            filter,
            ..
        } => {
            filter.is_none()
                && has_numbers(options, [0, 0, 0, 5, 107_374_182_400, 10, 5, 2_147_483_647])
                && has_flags(options, [false, false, true, false])
        }
        Command::Relocate {
            source,
            target,
            start,
            end,
            staging,
            ..
        } => {
            is_at(source, ["w", "s", ""])
                && is_at(target, ["new", "t", ""])
                && start.is_none()
                && end.is_none()
                && is_optionally_at(staging, ["stage", "", ""])
        }
        Command::Generate { number, rows, .. } => *number == 0 && *rows == 10_000_000,
    }
}

#[test]
fn each_procedure_is_typed(rt: HostRuntime) -> Result<(), Fail> {
    for (procedure, arguments) in CALLS {
        let command = command_of(rt.alloc(), procedure, arguments)?;
        let name = command.procedure_name();
        assert!(rt; name.eq_ignore_ascii_case(procedure), "{procedure}");
        assert!(rt; is_at(command.table(), ["w", "t", ""]), "{procedure}");
        assert!(rt; is_expected(&command), "{procedure}");
    }
    Ok(())
}

fn keeps_a_hundred(command: &Command) -> bool {
    match command {
        Command::Expire {
            table,
            older_than,
            retain_last,
            snapshot_ids,
        } => {
            is_at(table, ["w", "t", ""])
                && *older_than == Some(1_719_705_600_000)
                && *retain_last == Some(100)
                && snapshot_ids.len() == 0
        }
        _ => false,
    }
}

fn is_refused_with(
    alloc: Global,
    procedure: &str,
    arguments: &[Argument],
    expected: &str,
) -> Result<bool, Fail> {
    let call = call_of(alloc, procedure, arguments)?;
    Ok(match typed(alloc, &call) {
        Ok(_command) => false,
        Err(ArgErr::Bad { name }) => is_text(&name, expected),
        Err(ArgErr::Memory) => false,
    })
}

#[test]
fn statements_typed_and_refused(rt: HostRuntime) -> Result<(), Fail> {
    let arguments = [
        ("", Str("/w/t")),
        ("", Moment("2024-06-30 00:00:00.000")),
        ("", Number("100")),
    ];
    let command = command_of(rt.alloc(), "expire_snapshots", &arguments)?;
    assert!(rt; keeps_a_hundred(&command));
    let arguments = [T, ("retain_last", Number("0"))];
    assert!(rt; is_refused_with(rt.alloc(), "expire_snapshots", &arguments, "retain_last")?);
    Ok(())
}

/// Calls that are refused, with the name.
const REFUSALS: [(&str, &[Argument], &str); 43] = [
    ("Roll_back", &[("nope", Null)], "Roll_back"),
    // names
    ("rollback_to_snapshot", &[T, ("Nope", Number("1"))], "Nope"),
    ("rollback_to_snapshot", &[T, ("nope", Null)], "nope"),
    ("rollback_to_snapshot", &[T, ("ref", Str("b"))], "ref"),
    // repeats
    (
        "rollback_to_snapshot",
        &[T, ("TABLE", Str("/w/t"))],
        "table",
    ),
    (
        "rollback_to_snapshot",
        &[("snapshot_id", Null), ("snapshot_id", Number("1")), T],
        "snapshot_id",
    ),
    (
        "rewrite_data_files",
        &[T, ("options", Map(&[])), ("options", Map(&[("nope", "1")]))],
        "options",
    ),
    // places past the last one
    (
        "rollback_to_snapshot",
        &[("", Str("/w/t")), ("", Number("1")), ("", Null)],
        "#3",
    ),
    (
        "expire_snapshots",
        &[
            ("", Str("/w/t")),
            ("", Null),
            ("", Null),
            ("", Array(&["2"])),
        ],
        "#4",
    ),
    // values
    (
        "rollback_to_snapshot",
        &[("", Str("w/t")), ("", Number("1"))],
        "table",
    ),
    (
        "rollback_to_snapshot",
        &[("Table", Number("1")), ("x", Null)],
        "table",
    ),
    (
        "rollback_to_snapshot",
        &[T, ("SNAPSHOT_ID", Str("1"))],
        "snapshot_id",
    ),
    (
        "rollback_to_snapshot",
        &[T, ("snapshot_id", Number("9223372036854775808"))],
        "snapshot_id",
    ),
    (
        "rollback_to_snapshot",
        &[T, ("snapshot_id", Number("-9223372036854775809L"))],
        "snapshot_id",
    ),
    (
        "rollback_to_snapshot",
        &[
            T,
            (
                "snapshot_id",
                Number("100000000000000000000000000000000000000"),
            ),
        ],
        "snapshot_id",
    ),
    ("fast_forward", &[T, ("branch", Number("1"))], "branch"),
    (
        "expire_snapshots",
        &[T, ("retain_last", Number("2147483648"))],
        "retain_last",
    ),
    (
        "expire_snapshots",
        &[T, ("retain_last", Number("-1"))],
        "retain_last",
    ),
    (
        "expire_snapshots",
        &[T, ("snapshot_ids", Array(&["1", "9223372036854775808"]))],
        "snapshot_ids",
    ),
    (
        "expire_snapshots",
        &[T, ("older_than", Str("2024-06-30"))],
        "older_than",
    ),
    (
        "remove_orphan_files",
        &[T, ("dry_run", Str("true"))],
        "dry_run",
    ),
    (
        "remove_orphan_files",
        &[T, ("location", Str("/w/u"))],
        "location",
    ),
    (
        "remove_orphan_files",
        &[("location", Str("/w/tt")), T],
        "location",
    ),
    (
        "remove_orphan_files",
        &[("location", Str("/w/u")), ("table", Str("w"))],
        "table",
    ),
    (
        "rewrite_data_files",
        &[T, ("strategy", Str("sort"))],
        "strategy",
    ),
    (
        "rewrite_data_files",
        &[T, ("strategy", Str("BINPACK"))],
        "strategy",
    ),
    (
        "rewrite_data_files",
        &[T, ("sort_order", Str("id"))],
        "sort_order",
    ),
    (
        "rewrite_data_files",
        &[T, ("where", Str("id = 1"))],
        "where",
    ),
    (
        "rewrite_data_files",
        &[T, ("options", Str("rewrite-all"))],
        "options",
    ),
    (
        "rewrite_manifests",
        &[T, ("spec_id", Number("2147483648"))],
        "spec_id",
    ),
    (
        "rewrite_table_path",
        &[T, ("end_version", Str("v2.metadata.json"))],
        "end_version",
    ),
    ("generate", &[T, ("number", Number("-1"))], "number"),
    ("generate", &[T, ("rows", Number("10000001"))], "rows"),
    ("generate", &[T, ("rows", Number("0"))], "rows"),
    // one of two
    (
        "set_current_snapshot",
        &[T, ("snapshot_id", Number("1")), ("ref", Str("b"))],
        "ref",
    ),
    (
        "set_current_snapshot",
        &[("ref", Str("b")), ("snapshot_id", Str("1")), T],
        "ref",
    ),
    (
        "set_current_snapshot",
        &[("snapshot_id", Str("1")), ("ref", Str("b")), T],
        "snapshot_id",
    ),
    ("set_current_snapshot", &[T, ("ref", Null)], "snapshot_id"),
    ("set_current_snapshot", &[("ref", Null)], "table"),
    // lacks
    ("rollback_to_snapshot", &[], "table"),
    ("rollback_to_snapshot", &[("", Null), ("", Null)], "table"),
    (
        "rollback_to_snapshot",
        &[T, ("snapshot_id", Null)],
        "snapshot_id",
    ),
    ("fast_forward", &[("", Str("/w/t")), ("", Str("b"))], "to"),
];

#[test]
fn wrong_and_lacking_arguments_are_named(rt: HostRuntime) -> Result<(), Fail> {
    for (procedure, arguments, name) in REFUSALS {
        assert!(rt;
            is_refused_with(rt.alloc(), procedure, arguments, name)?,
            "{procedure}: {name}"
        );
    }
    Ok(())
}

const NO_MOMENTS: [&str; 13] = [
    "",
    "2024-6-30",
    "2023-02-30",
    "1900-02-29",
    "2024-00-10",
    "2024-06-30 24:00:00",
    "2024-06-30 00:60:00",
    "2024-06-30 23:59:60",
    "2024-06-30 00:00",
    "2024-06-30_00:00:00",
    "2024-06-30 00:00:00.",
    "2024-06-30 00:00:00.1234567",
    "2024-06-30 00:00:00Z",
];

#[test]
fn bad_moments_are_refused(rt: HostRuntime) -> Result<(), Fail> {
    for text in NO_MOMENTS {
        let arguments = [T, ("older_than", Moment(text))];
        assert!(rt;
            is_refused_with(rt.alloc(), "expire_snapshots", &arguments, "older_than")?,
            "{text}"
        );
    }
    Ok(())
}

const BAD_OPTIONS: [(&[(&str, &str)], &str); 10] = [
    (
        &[("rewrite-all", "true"), ("output-spec-id", "1")],
        "output-spec-id",
    ),
    (&[("Rewrite-All", "true")], "Rewrite-All"),
    (&[("rewrite-all", "TRUE")], "rewrite-all"),
    (
        &[("rewrite-all", "true"), ("rewrite-all", "true")],
        "rewrite-all",
    ),
    (
        &[("min-input-files", "0"), ("nope", "1")],
        "min-input-files",
    ),
    (
        &[("min-file-size-bytes", "9223372036854775808")],
        "min-file-size-bytes",
    ),
    (&[("min-file-size-bytes", "")], "min-file-size-bytes"),
    (&[("max-file-size-bytes", "5L")], "max-file-size-bytes"),
    (
        &[("target-file-size-bytes", "-5")],
        "target-file-size-bytes",
    ),
    (&[("delete-file-threshold", "1")], "delete-file-threshold"),
];

#[test]
fn bad_options_are_named(rt: HostRuntime) -> Result<(), Fail> {
    for (pairs, name) in BAD_OPTIONS {
        let arguments = [T, ("options", Map(pairs))];
        assert!(rt;
            is_refused_with(
                rt.alloc(),
                "rewrite_position_delete_files",
                &arguments,
                name
            )?,
            "{name}"
        );
    }
    Ok(())
}
