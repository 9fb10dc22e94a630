// Lists of calls on drafts, edits and reads together, by the law of calls. All of it is definitions and proofs; the function here names the
// theorem, so that the check asks for its proof. X and Y stand for types of sources.
#![tactic(auto)]

ghost use Rattle.sessions.specs.Sessions.{SessionsStand};

// Every list of calls by the law ends in well laid out words that decode to the plain machine's tree, with the machine's answers; two
// runs of one list over two types of sources agree where no call got "no space"; trees are nested at most 64 deep; the first offers stay.
pub fn sessions_follow_the_machine<X, Y>()
    ensures { SessionsStand X Y }
{}
