//! The languages of a program, and the words of each.
ghost use Rattle.std.specs.Prelude.{◌≡◌};
ghost use Rattle.cn_code.specs.Frame.{word};

mod c;
mod c_looks;
mod c_object;
mod c_tournament;
mod c_tree;
mod rust;
mod rust_looks;
mod rust_object;
mod rust_tournament;
mod rust_tree;

use crate::language::c::c_word;
use crate::language::rust::rust_word;

/// A language in which a plan can be written.
#[derive(Clone, Copy)]
pub(crate) enum Language {
    Rust,
    C,
}

/// Of what a program is.
#[derive(Clone, Copy)]
pub(crate) enum Form {
    /// A plan: a tournament, at whose nodes two teams meet.
    Tournament,
    /// A plan tree in which some process reads an object, and none looks by an operation.
    LookTree,
    /// A plan tree in which no process looks.
    BlindTree,
    /// A plan tree in which some process looks by an operation, and none reads.
    ResponseTree,
    /// A plan tree in which some process looks by an operation, and some reads.
    MixedTree,
}

/// A text of a language that is the same for every plan. Each ends where a text of the plan, of the
/// object or of the form begins. Those of all forms stand here in the order of the file.
#[derive(Clone, Copy)]
pub(crate) enum Part {
    /// Up to the number of processes, in the first line.
    Title,
    /// Up to the name of the type.
    TypeName,
    /// Up to how the processes meet.
    Intro,
    /// What holds for all forms, up to the steps of a process.
    Claims,
    /// What the file takes for granted.
    Trust,
    /// What it uses of the standard library, up to the first constant.
    Uses,
    /// Up to the number of processes.
    Processes,
    /// Up to the number of nodes.
    Nodes,
    /// Up to the most teams of a node.
    Teams,
    /// Up to the most steps of a process.
    Steps,
    /// Up to the lines of the states.
    States,
    /// Up to the lines of the operations.
    Operations,
    /// Up to the lines of the responses.
    Responses,
    /// In the line of a name, up to the name.
    Name,
    /// Up to its number.
    NameNumber,
    /// Up to the lines of the transitions.
    Transitions,
    /// In the line of an operation, up to its transitions.
    TransitionRow,
    /// In a transition, up to the response.
    TransitionResponse,
    /// Up to the next state.
    TransitionNext,
    /// Behind it.
    TransitionEnd,
    /// Up to the name of the operation.
    TransitionName,
    /// Up to the lines of the start states.
    Starts,
    /// In the line of a start state, up to its number.
    StartState,
    /// Up to the number of the node.
    StartNode,
    /// Up to the name of the state.
    StartName,
    /// Up to the name of the form.
    Places,
    /// Up to the lines of the places.
    PlaceLines,
    /// In the line of a place, up to its process.
    ProcessField,
    /// Up to its node.
    NodeField,
    /// Up to its team.
    TeamField,
    /// Up to its operation.
    OperationField,
    /// Up to the name of the operation.
    OperationName,
    /// In a judgement, up to its lines.
    JudgementStart,
    /// Behind its lines.
    JudgementEnd,
    /// Behind the judgements, if no object is served.
    TablesEnd,
    /// The end of a line.
    LineEnd,
    /// A text of the objects, the registers and the algorithm.
    Program(ProgramPart),
    /// A text of the interface, which only C has.
    Interface(InterfacePart),
    /// A text of programs that serve an object.
    InObject(ObjectPart),
    /// A text of tournaments alone.
    InTournament(TournamentPart),
    /// A text of plan trees alone.
    InTree(TreePart),
    /// A text that each form has, and has for itself.
    Own(Form, OwnPart),
}

/// A text of the objects, the registers and the algorithm, in the order of the file.
#[derive(Clone, Copy)]
pub(crate) enum ProgramPart {
    /// In Rust the object, up to the operation to read; in C up to the judgement.
    Object,
    /// In Rust up to the name of the form.
    Node,
    /// In Rust up to the judgement.
    Steps,
    /// From the last step at a place to the check of an operation.
    Take,
    /// The rest of the check of objects.
    CheckEnd,
    /// Up to the end of the file.
    End,
}

/// A text of the interface in C, in the order of the file.
#[derive(Clone, Copy)]
pub(crate) enum InterfacePart {
    /// The object, up to the operation to read.
    Object,
    /// Up to the name of the form.
    ObjectEnd,
    /// Up to the statuses of an object that is served.
    NodeEnd,
    /// Up to the functions of an object that is served.
    Status,
    /// Up to the tables.
    End,
}

/// A text of programs that serve an object, in the order of the file.
#[derive(Clone, Copy)]
pub(crate) enum ObjectPart {
    /// In the first line, up to the name of the object.
    Title,
    /// What the object does.
    About,
    /// In C how a call can end besides.
    Full,
    /// In C its interface.
    Interface,
    /// Up to the lines of its states.
    States,
    /// Up to the lines of its operations.
    Operations,
    /// Up to the lines of its responses.
    Responses,
    /// Up to the lines of its transitions.
    Transitions,
    /// Up to the name of its start state.
    Start,
    /// Up to the number of this state.
    StartNumber,
    /// Behind it.
    StartEnd,
    /// The object.
    Universal,
}

/// A text of tournaments alone, in the order of the file.
#[derive(Clone, Copy)]
pub(crate) enum TournamentPart {
    /// In the line of a place, up to its role.
    RoleField,
    /// In the judgements of a role, up to its number.
    RoleNumber,
    /// Up to the name of its operation.
    RoleOperation,
    /// Up to the letter of a team.
    Team,
}

/// A text of plan trees alone, in the order of the file.
#[derive(Clone, Copy)]
pub(crate) enum TreePart {
    /// In the line of a place, up to whether the process looks.
    LooksField,
    /// Up to the operation by which it looks.
    LookField,
    /// Behind this operation.
    LookEnd,
    /// That it looks by no operation.
    NoLook,
    /// Up to the name of this operation, in the comment.
    LookName,
    /// Up to the number of its judgement.
    JudgementField,
    /// In a judgement, up to its number.
    JudgementNumber,
}

/// A text that each form has for itself.
#[derive(Clone, Copy)]
pub(crate) enum OwnPart {
    /// How the processes meet.
    Meet,
    /// The steps of a process.
    Bound,
    /// The operation to read, if some process does.
    Read,
    /// The name of the form.
    Figure,
    /// The type of a place.
    Place,
    /// Up to the judgements.
    Judgements,
    /// In the line of a response, up to the teams.
    Row,
    /// Up to the name of the response.
    ResponseName,
    /// From the response to the team that came first.
    Judge,
    /// The check of an operation of objects.
    CheckOperation,
}

impl Language {
    /// The text of the language for a part.
    #[tactic(auto, unfolding(crate::specs::Frame::word))]
    pub(crate) fn word(self, part: Part) -> &'static str
        ensures { result.now ≡ word self part }
    {
        match self {
            Language::Rust => rust_word(part),
            Language::C => c_word(part),
        }
    }
}
