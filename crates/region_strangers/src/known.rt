// Tables that the leaf does not have.
ghost use Rattle.std.specs.Prelude.{◌≡◌, None, Some, map, bytes_eq, IfOk, IfErr, OnOk};
ghost use Rattle.std.specs.List.{list_any, position};
ghost use Rattle.region_layout.specs.declared.directory.TablePlaces.{TablePlaces};
ghost use Rattle.region_strangers.specs.Strangers.{stranger_of};
ghost use Rattle.region_strangers.specs.Strangers.{is_stranger};

use leaf_model::Text;
use region_layout::{TablePlaces, TablePlacesList};

/// Gives the tables back if each has one of the names. An Err gives the name of the first that has none of them.
pub fn all_known(names: &[Text], tables: TablePlacesList) -> Result<TablePlacesList, Text>
    ensures same { IfOk result (λ all. all ≡ tables) }
    ensures known { OnOk result (stranger_of names.now (map (λ (t : TablePlaces). t.name) tables) ≡ None) }
    ensures stranger { IfErr result (λ name.
        stranger_of names.now (map (λ (t : TablePlaces). t.name) tables) ≡ Some name) }
{
    let mut tables = tables.into_inner();
    match first_stranger(names, &tables) {
        None => Ok(TablePlacesList::of(tables)),
        Some(place) => Err(tables.swap_remove(place).name),
    }
}

fn first_stranger(names: &[Text], tables: &[TablePlaces]) -> Option<usize>
    ensures { result ≡ position (is_stranger names.now) tables.now }
{
    tables
        .iter()
        .position(|table| !has_name(names, table.name.as_str()))
}

fn has_name(names: &[Text], name: &str) -> bool
    ensures { result ≡ list_any (bytes_eq name.now) names.now }
{
    names.iter().any(|other| name == other.as_str())
}
