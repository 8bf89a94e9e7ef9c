//! How values are told: as the table writes them, and `absent` where there is none.
use env_vars::{EnvValue, Item};
use scons_base::Text;
use trial_text::Told;

/// Tells a value.
pub(crate) fn put_value(told: &mut Told, value: Option<&EnvValue>) {
    match value {
        None => told.put("absent"),
        Some(EnvValue::Nil) => told.put("nil"),
        Some(EnvValue::Bool(flag)) => told.show(*flag),
        Some(EnvValue::Int(number)) => told.show(*number),
        Some(EnvValue::Text(text)) => told.put_all(&["'", text.as_str(), "'"]),
        Some(EnvValue::Words(words)) => put_words(told, words.as_slice()),
        Some(EnvValue::List(items)) => put_items(told, items.as_slice()),
        Some(EnvValue::Pairs(pairs)) => put_pairs(told, pairs.as_slice()),
    }
}

fn put_words(told: &mut Told, words: &[Text]) {
    told.put("w[");
    let mut comma = "";
    for word in words {
        told.put(comma);
        told.put(word.as_str());
        comma = ",";
    }
    told.put("]");
}

fn put_items(told: &mut Told, items: &[Item]) {
    told.put("[");
    let mut comma = "";
    for item in items {
        told.put(comma);
        put_item(told, item);
        comma = ",";
    }
    told.put("]");
}

fn put_pairs(told: &mut Told, pairs: &[(Text, Item)]) {
    told.put("{");
    let mut comma = "";
    for (name, item) in pairs {
        told.put_all(&[comma, name.as_str(), ":"]);
        put_item(told, item);
        comma = ",";
    }
    told.put("}");
}

fn put_item(told: &mut Told, item: &Item) {
    match item {
        Item::Text(text) => told.put_all(&["'", text.as_str(), "'"]),
        Item::Int(number) => told.show(*number),
        Item::Node(path) => told.put_all(&["<", path.as_str(), ">"]),
        Item::Pair(name, None) => told.put(name.as_str()),
        Item::Pair(name, Some(value)) => told.put_all(&[name.as_str(), "=", value.as_str()]),
    }
}
