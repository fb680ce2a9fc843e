//! The options of the rewrites, in the map `options`.
ghost use Rattle.std.specs.Prelude.{◌≡◌, ℕ, List, [], find, option_copied};
ghost use Rattle.std.specs.List.{list_any};
ghost use Rattle.std.specs.Str.{bytes_eq};
ghost use Rattle.call_arguments.specs.declared.options.OptionLine.{OptionLine as TheLine};
ghost use Rattle.call_arguments.specs.Options.{option_name, options_of, flag_of, option_fits, option_line, is_right_option, first_bad_option, option_value, number_option, flag_option};

use ice_store::{Text, natural_of};

/// Which files a rewrite is for, since the options differ.
#[derive(Clone, Copy)]
pub enum Rewrite {
    Data,
    Deletes,
}

/// The name of an option.
#[derive(Clone, Copy)]
pub enum OptionName {
    TargetFileSizeBytes,
    MinFileSizeBytes,
    MaxFileSizeBytes,
    MinInputFiles,
    MaxFileGroupSizeBytes,
    RewriteAll,
    PartialProgressEnabled,
    PartialProgressMaxCommits,
    MaxConcurrentFileGroupRewrites,
    DeleteFileThreshold,
    UseStartingSequenceNumber,
    RemoveDanglingDeletes,
}

/// What the text of an option must be.
#[derive(Clone, Copy)]
pub enum OptionForm {
    /// Decimal digits of a number from 0 to 2^63 - 1.
    From0,
    /// Decimal digits of a number from 1 to 2^63 - 1.
    From1,
    /// `true` or `false`.
    Flag,
}

/// A line of the table of options.
#[derive(Clone, Copy)]
pub struct OptionLine {
    pub name: OptionName,
    pub form: OptionForm,
}

impl OptionName {
    /// The name as it is written, letter case and all.
    #[tactic(auto, unfolding(crate::specs::Options::option_name))]
    pub fn spelling(self) -> &'static str
        ensures { result.now ≡ option_name self }
    {
        match self {
            OptionName::TargetFileSizeBytes => "target-file-size-bytes",
            OptionName::MinFileSizeBytes => "min-file-size-bytes",
            OptionName::MaxFileSizeBytes => "max-file-size-bytes",
            OptionName::MinInputFiles => "min-input-files",
            OptionName::MaxFileGroupSizeBytes => "max-file-group-size-bytes",
            OptionName::RewriteAll => "rewrite-all",
            OptionName::PartialProgressEnabled => "partial-progress.enabled",
            OptionName::PartialProgressMaxCommits => "partial-progress.max-commits",
            OptionName::MaxConcurrentFileGroupRewrites => "max-concurrent-file-group-rewrites",
            OptionName::DeleteFileThreshold => "delete-file-threshold",
            OptionName::UseStartingSequenceNumber => "use-starting-sequence-number",
            OptionName::RemoveDanglingDeletes => "remove-dangling-deletes",
        }
    }
}

macro_rules! line {
    ($name:ident, $form:ident) => {
        OptionLine {
            name: OptionName::$name,
            form: OptionForm::$form,
        }
    };
}

const DATA_OPTIONS: [OptionLine; 12] = [
    line!(TargetFileSizeBytes, From1),
    line!(MinFileSizeBytes, From0),
    line!(MaxFileSizeBytes, From1),
    line!(MinInputFiles, From1),
    line!(MaxFileGroupSizeBytes, From1),
    line!(RewriteAll, Flag),
    line!(PartialProgressEnabled, Flag),
    line!(PartialProgressMaxCommits, From1),
    line!(MaxConcurrentFileGroupRewrites, From1),
    line!(DeleteFileThreshold, From1),
    line!(UseStartingSequenceNumber, Flag),
    line!(RemoveDanglingDeletes, Flag),
];

const DELETE_OPTIONS: [OptionLine; 9] = [
    line!(TargetFileSizeBytes, From1),
    line!(MinFileSizeBytes, From0),
    line!(MaxFileSizeBytes, From1),
    line!(MinInputFiles, From1),
    line!(MaxFileGroupSizeBytes, From1),
    line!(RewriteAll, Flag),
    line!(PartialProgressEnabled, Flag),
    line!(PartialProgressMaxCommits, From1),
    line!(MaxConcurrentFileGroupRewrites, From1),
];

/// The options of a rewrite.
#[tactic(auto, unfolding(crate::specs::Options::options_of))]
pub(crate) fn options_of(rewrite: Rewrite) -> &'static [OptionLine]
    ensures { result.now ≡ options_of rewrite }
{
    match rewrite {
        Rewrite::Data => &DATA_OPTIONS,
        Rewrite::Deletes => &DELETE_OPTIONS,
    }
}

fn flag_of(text: &Text) -> Option<bool>
    ensures { result ≡ flag_of text.now }
{
    if text.inner().as_slice() == b"true".as_slice() {
        Some(true)
    } else if text.inner().as_slice() == b"false".as_slice() {
        Some(false)
    } else {
        None
    }
}

fn option_fits(form: OptionForm, text: &Text) -> bool
    ensures { result ≡ option_fits form text.now }
{
    match form {
        OptionForm::From0 => natural_of(text.inner()).is_some(),
        OptionForm::From1 => match natural_of(text.inner()) {
            Some(number) => 1 <= number,
            None => false,
        },
        OptionForm::Flag => flag_of(text).is_some(),
    }
}

fn is_called(name: OptionName, key: &Text) -> bool
    ensures { result ≡ bytes_eq key.now (option_name name) }
{
    key.inner().as_slice() == name.spelling().as_bytes()
}

fn option_line<'a>(lines: &'a [OptionLine], key: &Text) -> Option<&'a OptionLine>
    ensures { option_copied result ≡ option_line lines.now key.now }
{
    lines.iter().find(|line| is_called(line.name, key))
}

fn is_repeated(earlier: &[(Text, Text)], key: &Text) -> bool
    ensures { result ≡ list_any (λ (p : List ℕ × List ℕ). bytes_eq p.0 key.now) earlier.now }
{
    earlier
        .iter()
        .any(|pair| pair.0.inner().as_slice() == key.inner().as_slice())
}

fn is_right_option(lines: &[OptionLine], earlier: &[(Text, Text)], pair: &(Text, Text)) -> bool
    ensures { result ≡ is_right_option lines.now earlier.now pair.now }
{
    match option_line(lines, &pair.0) {
        Some(line) => option_fits(line.form, &pair.1) && !is_repeated(earlier, &pair.0),
        None => false,
    }
}

/// The key of the first pair whose option is unknown, repeated or not of its form.
pub(crate) fn first_bad_option<'a>(
    lines: &[OptionLine],
    pairs: &'a [(Text, Text)],
) -> Option<&'a Text>
    ensures { option_copied result ≡ first_bad_option lines.now [] pairs.now }
{
    for i in 0..pairs.len() {
        if !is_right_option(lines, &pairs[..i], &pairs[i]) {
            return Some(&pairs[i].0);
        }
    }
    None
}

fn option_pair(pairs: &[(Text, Text)], name: OptionName) -> Option<&(Text, Text)>
    ensures { option_copied result ≡ find (λ (p : List ℕ × List ℕ). bytes_eq p.0 (option_name name)) pairs.now }
{
    pairs.iter().find(|pair| is_called(name, &pair.0))
}

fn option_value(pairs: &[(Text, Text)], name: OptionName) -> Option<&Text>
    ensures { option_copied result ≡ option_value pairs.now name }
{
    match option_pair(pairs, name) {
        Some(pair) => Some(&pair.1),
        None => None,
    }
}

/// The number that an option is given as; none where it isn't given, or not as a number up to 2^63 - 1.
pub fn number_option(pairs: &[(Text, Text)], name: OptionName) -> Option<u64>
    ensures { result ≡ number_option pairs.now name }
{
    natural_of(option_value(pairs, name)?.inner())
}

/// Whether an option is given as `true` or as `false`; none where it is given as neither.
pub fn flag_option(pairs: &[(Text, Text)], name: OptionName) -> Option<bool>
    ensures { result ≡ flag_option pairs.now name }
{
    flag_of(option_value(pairs, name)?)
}
