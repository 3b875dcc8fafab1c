ghost use Rattle.std.specs.Prelude.{◌≡◌, ◌<◌, ◌≤◌, None, MatchOption, OnSome, IfSome};
ghost use Rattle.serde_json.specs.Data.{no_members, put};
ghost use Rattle.serde_json.specs.Find.{get_member};
ghost use Rattle.dv_document.specs.View.{view, members_view, json_left, members_left};

use crate::places::{Json, Members};
use crate::value::after;
use json::Node;

impl<'t> Members<'t> {
    /// The next member, which is passed: its key and its value. At the end it stays there.
    pub fn next(&mut self) -> Option<(&'t str, Json<'t>)>
        ensures value { MatchOption result (members_view self.old ≡ no_members)
            (λ member. members_view self.old
            ≡ put member.0.now (view member.1) (members_view self.new)) }
        ensures once { IfSome result
            (λ member. get_member member.0.now (members_view self.new) ≡ None) }
        ensures shorter { OnSome result (members_left self.new < members_left self.old) }
        ensures within { IfSome result (λ member. json_left member.1 ≤ members_left self.old) }
        ensures stays { result ≡ None → self.new ≡ self.old }
    {
        let nodes = self.tape.nodes();
        if self.at >= nodes.len() {
            return None;
        }
        let Node::Key(key) = nodes[self.at] else {
            return None;
        };
        let at = self.at + 1;
        self.at = after(self.tape, at);
        Some((
            key,
            Json {
                tape: self.tape,
                at,
            },
        ))
    }
}
