//! The law of a table's history: when it is steady, what a stop then leaves, and which steps keep it steady.
//!
//! The definitions stand in `specs/`: version places (`Versions`), how a table is read and what others may do
//! (`Readings`), version, table and whole maps (`Tables`), commits and which of them are acknowledged (`Commits`),
//! steady histories (`Steady`), what other writers may do (`Mannered`), and what a call adds to a history (`Runs`).
//! The functions here have empty bodies: their contracts are the laws.
#![tactic(auto)]

ghost use Rattle.std.specs.Prelude.{◌≡◌, ◌++◌, ◌∷◌, [], List};
ghost use Rattle.ice_store.specs.Places.{Parts};
ghost use Rattle.ice_store.specs.History.{replay};
ghost use Rattle.ice_store.specs.Calls.{IsListing};
ghost use Rattle.ice_store.specs.declared.history.Held.{Held};
ghost use Rattle.ice_store.specs.declared.store.Listed.{Listed};
ghost use Rattle.ice_store.specs.declared.history.Past.{Past as Told};
ghost use Rattle.ice_store.specs.declared.history.Step.{Step as Taken};
ghost use Rattle.commit_history.specs.Readings.{Content, IsLocal, reading_of};
ghost use Rattle.commit_history.specs.Tables.{version, table as table_of};
ghost use Rattle.commit_history.specs.Commits.{all_tables, commits_in, first_disk, tables_of, open_of, standing};
ghost use Rattle.commit_history.specs.Mannered.{IsMannered, with_writers, with_nobody};
ghost use Rattle.commit_history.specs.Listings.{greatest};
ghost use Rattle.commit_history.specs.Versions.{number_in, folder};
ghost use Rattle.commit_history.specs.Steady.{IsSteady, IsSteadyStep, KeepsSteady};
ghost use Rattle.commit_history.specs.Runs.{ImagesReopen};

use ice_store::Place;

/// How tables are read: of the table at each place, which bytes of a version file are good beside what is sealed, and
/// which places they reach.
pub trait TableReading {
    ghost content: { Parts → Content };

    /// It looks only at what is reached.
    ghost localized: { (table : Parts) → IsLocal (reading_of content table) };
}

/// Every image of a steady history is whole, and its table is the last of a prefix of the commits that holds every
/// acknowledged one.
pub fn images_reopen<R: TableReading>(table: &Place)
    ensures { (past : Told) → IsSteady (reading_of R.content table.now) past → ImagesReopen (reading_of R.content table.now) past }
{}

/// The commits of a history by what follows each of them: all of them in order, and those that are not acknowledged.
pub fn commits_stand(table: &Place)
    ensures all { (past : Told) → all_tables (standing (number_in table.now) past) ≡ table_of (number_in table.now) (first_disk past).files ∷ tables_of (commits_in (number_in table.now) past) }
    ensures open_ones { (past : Told) → (standing (number_in table.now) past).unacknowledged ≡ open_of (commits_in (number_in table.now) past) }
{}

/// The steps of Us that keep a history steady, each under its condition.
pub fn steps_stay_steady<R: TableReading>(table: &Place)
    ensures { (past : Told) (step : Taken) → IsSteadyStep (reading_of R.content table.now) step (replay past) → KeepsSteady (reading_of R.content table.now) past step }
{}

/// The writers of a table keep its histories steady.
pub fn table_is_mannered<R: TableReading>(table: &Place)
    ensures { IsMannered (with_writers (reading_of R.content table.now)) }
{}

/// So does nobody.
pub fn nobody_is_mannered<R: TableReading>(table: &Place)
    ensures { IsMannered (with_nobody (reading_of R.content table.now)) }
{}

/// The greatest version in a listing of the metadata's folder is the version of the map.
pub fn listing_tells(table: &Place)
    ensures { (files : List Held) (listed : List Listed) → IsListing (table.now ++ folder ∷ []) files listed → greatest (number_in table.now) listed ≡ version (number_in table.now) files }
{}
