// What `==` answers, at every type of this crate that has it: whether the two values are the same.
ghost use Rattle.std.specs.Prelude.{◌≡◌, Decides};
ghost use Rattle.scanner.specs.declared.element.Element.{Element};
ghost use Rattle.scanner.specs.declared.place.Place.{Place};
ghost use Rattle.scanner.specs.declared.source.Ending.{Ending};
ghost use Rattle.scanner.specs.declared.token.Token.{Token};

use crate::element::Element;
use crate::place::Place;
use crate::source::Ending;
use crate::token::Token;

// The laws need no call to be said, so they stand on the contract of a function that does nothing.
pub fn equality_decides()
    ensures elements { (a b : Element) → Decides (⟦<Element as PartialEq>⟧.eq a b) (a ≡ b) }
    ensures tokens { (a b : Token) → Decides (⟦<Token as PartialEq>⟧.eq a b) (a ≡ b) }
    ensures places { (a b : Place) → Decides (⟦<Place as PartialEq>⟧.eq a b) (a ≡ b) }
    ensures endings { (a b : Ending) → Decides (⟦<Ending as PartialEq>⟧.eq a b) (a ≡ b) }
{}
