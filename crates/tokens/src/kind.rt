// What a token is called in the listing.
use objects::object::Value;
use scanner::element::Element;

// Kept: a function and no Display, since the type is another crate's and the words are those of this listing.
pub fn kind(element: Element) -> &'static str {
    match element {
        Element::String(_) => "string",
        Element::Procedure(_) => "procedure",
        Element::Object(object) => match (object.executable, object.value) {
            (true, Value::Name(_)) => "name",
            (false, Value::Name(_)) => "literal",
            _ => "integer",
        },
    }
}
