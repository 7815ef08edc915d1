// The commands of the program by the numbers of their pages of help. Made by docs/tables from docs/help.txt.

// A command of the program, or one of those that ./urvendlo alone has.
#[derive(Clone, Copy)]
pub enum Command {
    Help,
    Figures,
    Notes,
    Cuts,
    Why,
    Line,
    Write,
    Edit,
    Gate,
    Mend,
    Changes,
    OfLauncher,
}

pub fn command_of(page: usize) -> Command {
    match page {
        texts::HELP => Command::Help,
        texts::FIGURES => Command::Figures,
        texts::NOTES => Command::Notes,
        texts::CUTS => Command::Cuts,
        texts::WHY => Command::Why,
        texts::LINE => Command::Line,
        texts::WRITE => Command::Write,
        texts::EDIT => Command::Edit,
        texts::GATE => Command::Gate,
        texts::MEND => Command::Mend,
        texts::CHANGES => Command::Changes,
        _ => Command::OfLauncher,
    }
}
