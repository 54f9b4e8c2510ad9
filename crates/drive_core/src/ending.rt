//! How a turn of work closes.
ghost use Rattle.std.specs.Prelude.{◌≡◌, ◌+◌, ◌≤◌, ◌∷◌, [], ◌++◌, Some, None, vec_len, vec_capacity};
ghost use Rattle.task_set.specs.Members.{member_of, IsIn};
ghost use Rattle.drive_core.specs.Moves.{Leaves};
ghost use Rattle.drive_scene.specs.Ending.{ended_of_member};

use crate::Ended;
use crate::accepted::leave;
use crate::server::Server;
use block_machine::Entry;
use sense_data::Reply;
use task_set::Member;

/// The command ends, where it has a reply.
pub fn conclude(
    server: &mut Server,
    c: u32,
    reply: Option<Reply>,
    entries: &mut Vec<Entry>,
) -> Option<Ended>
    requires room { vec_len entries.old + 1 ≤ vec_capacity entries.old }
    requires is_in { IsIn server.old.set c }
    ensures goes { reply ≡ None → (server.new ≡ server.old) × (entries.new.items ≡ entries.old.items) × (result ≡ None) }
    ensures ends { (r : Reply) → reply ≡ Some r → Leaves server.old server.new c
        × (entries.new.items ≡ entries.old.items ++ Entry.Ended c r ∷ []) × (result ≡ ended_of_member (member_of server.old.set c) r) }
{
    match reply {
        Some(reply) => end(server, c, reply, entries),
        None => None,
    }
}

// The command ends with a reply.
fn end(server: &mut Server, c: u32, reply: Reply, entries: &mut Vec<Entry>) -> Option<Ended>
    requires room { vec_len entries.old + 1 ≤ vec_capacity entries.old }
    requires is_in { IsIn server.old.set c }
    ensures leaves { Leaves server.old server.new c }
    ensures entries { entries.new.items ≡ entries.old.items ++ Entry.Ended c reply ∷ [] }
    ensures ended { result ≡ ended_of_member (member_of server.old.set c) reply }
{
    entries.push_reserved(Entry::Ended { c, reply });
    let ended = ended_as(server.set.member(c), &reply);
    server.set.end(c);
    leave(&mut server.commands, c);
    ended
}

// The command as initiators know it, with the status of its reply.
fn ended_as(member: Option<Member>, reply: &Reply) -> Option<Ended>
    ensures { result ≡ ended_of_member member reply.now }
{
    match member {
        Some(member) => Some(Ended {
            initiator: member.task.initiator,
            tag: member.task.tag,
            status: reply.status,
        }),
        None => None,
    }
}
