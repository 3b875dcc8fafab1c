ghost use Rattle.std.specs.Prelude.{◌≡◌, ◌<◌, ◌≤◌, None, MatchOption, OnSome, IfSome};
ghost use Rattle.serde_json.specs.Data.{no_items, item};
ghost use Rattle.dv_document.specs.View.{view, items_view, count, items_left, json_left};

use crate::places::{Elements, Json};
use crate::value::after;
use json::Node;

impl<'t> Elements<'t> {
    /// The next element, which is passed; at the end it stays there.
    pub fn next(&mut self) -> Option<Json<'t>>
        ensures value { MatchOption result (items_view self.old ≡ no_items)
            (λ json. items_view self.old ≡ item (view json) (items_view self.new)) }
        ensures shorter { OnSome result (items_left self.new < items_left self.old) }
        ensures within { IfSome result (λ json. json_left json ≤ items_left self.old) }
        ensures stays { result ≡ None → self.new ≡ self.old }
    {
        let at = self.at;
        let nodes = self.tape.nodes();
        if at >= nodes.len() {
            return None;
        }
        if let Node::EndArray = nodes[at] {
            return None;
        }
        self.at = after(self.tape, at);
        Some(Json {
            tape: self.tape,
            at,
        })
    }

    /// The first element and those after it, or none.
    pub fn split_first(self) -> Option<(Json<'t>, Elements<'t>)>
        ensures value { MatchOption result (items_view self.entry ≡ no_items)
            (λ parts. items_view self.entry ≡ item (view parts.0) (items_view parts.1)) }
        ensures shorter { IfSome result (λ parts. items_left parts.1 < items_left self.entry) }
        ensures within { IfSome result (λ parts. json_left parts.0 ≤ items_left self.entry) }
    {
        let mut rest = self;
        let first = rest.next()?;
        Some((first, rest))
    }

    /// How many there are. It passes them all.
    pub fn len(self) -> usize
        ensures { result ≡ count (items_view self.entry) }
    {
        // (there are no more than nodes, whose number a word holds)
        let _ = self.tape.len();
        let mut rest = self;
        let mut count = 0;
        while rest.next().is_some() {
            count += 1;
        }
        count
    }
}
