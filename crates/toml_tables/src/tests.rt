//! The table of a text, by hand.

use crate::{array_at, has_only, text_at, value_at, values_of};
use std::test::Fail;

#[test]
fn looks_values_up(rt: HostRuntime) -> Result<(), Fail> {
    let alloc = rt.alloc();
    let text = "name = 'r'\nrows = 3\nlists = [['a', 'b'], []]";
    let table = toml::table_from_str(alloc, text).map_err(|_| Fail::from("no TOML"))?;
    assert_eq!(rt; text_at(&table, "name"), Some("r"));
    assert_eq!(rt; text_at(&table, "rows"), None);
    assert!(rt; value_at(&table, "rows").is_some() && value_at(&table, "row").is_none());
    assert!(rt; array_at(&table, "name").is_none());
    let lists = array_at(&table, "lists").ok_or("no array")?;
    assert_eq!(rt; lists.len(), 2);
    assert_eq!(rt; values_of(&lists[0]).ok_or("no array")?.len(), 2);
    assert!(rt; has_only(&table, ["lists", "name", "rows", "more"].as_slice()));
    assert!(rt; !has_only(&table, ["lists", "name"].as_slice()));
    Ok(())
}
