//! The forms of an answer.
ghost use Rattle.std.specs.Prelude.{◌≡◌};
ghost use Rattle.cn_form.specs.Forms.{document_form};

/// A form of an answer.
#[derive(Clone, Copy, Debug, PartialEq, Eq)]
pub enum AnswerForm {
    /// Lines of text for people.
    Text,
    /// One JSON value.
    Json,
}

impl AnswerForm {
    /// The form of a document that is this form of an answer.
    pub fn of_document(self) -> DocumentForm
        ensures { result ≡ document_form self }
    {
        match self {
            AnswerForm::Text => DocumentForm::Text,
            AnswerForm::Json => DocumentForm::Json,
        }
    }
}

/// A form of an answer that documents take as it is.
#[derive(Clone, Copy, Debug, PartialEq, Eq)]
pub enum DocumentForm {
    /// Lines of text for people.
    Text,
    /// One JSON value.
    Json,
    /// Markdown.
    Markdown,
}
